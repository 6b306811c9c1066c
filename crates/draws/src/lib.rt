// Codes 24 and 27 (document 01, 'Answer table'; document 02, Item 7): the demands named, members' and moved job's together, exceed the capacity, and without
// any one member they do not.
#![tactic(auto)]

ghost use Rattle.std.specs.Prelude.{◌≡◌, [], ◌<◌, ltb, length};
ghost use Rattle.lists.specs.Sets.{total_of};
ghost use Rattle.journal.specs.Journal.{job_of, is_member};
ghost use Rattle.timetable.specs.Reason.{named};
ghost use Rattle.codes.specs.Codes.{lean};
ghost use Rattle.exam.specs.Lent.{jobs_in, Drawn, LetThrough};

// `Drawn` is the one word for demands that passed the tests, asked in each contract: as the invariant of a struct it would wrap this one list, and `judge`
// would have to build that and prove it.

// The demands of the members.
fn members_draw(dem: &[u32], words: &[u32; logs::RECORD]) -> u32
    requires { Drawn dem.now }
    ensures { result ≡ total_of (length dem.now) dem.now (is_member words.now) }
{
    let set = logs::set_of(words);
    let mut sum: u32 = 0;
    for (k, demand) in dem.iter().enumerate() {
        if bits::has(set, k) {
            sum += demand;
        }
    }
    sum
}

// The demands named, members' and moved job's together.
fn named(dem: &[u32], words: &[u32; logs::RECORD]) -> u32
    requires { Drawn dem.now × (job_of words.now < length dem.now) }
    ensures { result ≡ named (jobs_in (length dem.now) [] dem.now 0) words.now }
{
    members_draw(dem, words) + dem[words[logs::JOB_WORD] as usize]
}

// 24: they exceed the capacity.
pub fn exceeds(dem: &[u32], cap: u32, words: &[u32; logs::RECORD]) -> bool
    requires { Drawn dem.now × (job_of words.now < length dem.now) }
    ensures { result ≡ ltb cap (named (jobs_in (length dem.now) [] dem.now 0) words.now) }
{
    cap < named(dem, words)
}

// 27: no member is spare: without any one of them the demands named no longer exceed the capacity.
pub fn lean(dem: &[u32], cap: u32, words: &[u32; logs::RECORD]) -> bool
    requires { Drawn dem.now × LetThrough (length dem.now) words.now }
    ensures { result ≡ lean (jobs_in (length dem.now) [] dem.now cap) words.now }
{
    let all = named(dem, words);
    exam::every_member(logs::set_of(words), |k| all - dem[k] <= cap)
}
