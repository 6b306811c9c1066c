// What a record has to be (document 01, 'Answer table'), a function for each test: codes 21, 22, 23 and 26. `draws` has 24 and 27, `stated` 25.
// A record is the caller's own twelve words (01, 'Log records'), read in place: the definitions (`code`, `stated_true`) speak of the list of its words, and each
// contract would have to say of a struct of job, side, time and set that it agrees with that list. `as usize` loses nothing of a word: by `usize::try_from` it
// would be a Result that cannot fail.
#![tactic(auto)]

ghost use Rattle.std.specs.Prelude.{◌≡◌, ℕ, Bool, true, [], ◌*◌, ◌≤◌, ◌<◌, eqb, length};
ghost use Rattle.lists.specs.Lists.{◌!◌};
ghost use Rattle.lists.specs.Tests.{where?, every};
ghost use Rattle.narrowing.specs.Windows.{win};
ghost use Rattle.members.specs.Members.{set_words, has, ones_of};
ghost use Rattle.journal.specs.Journal.{count_word, set_of_record, job_of, time_of};
ghost use Rattle.codes.specs.Facts.{side};
ghost use Rattle.codes.specs.Codes.{in_range, takes_part, partners, tightens};
ghost use Rattle.exam.specs.Lent.{jobs_in};

use windows::Side;

// 21: the job is in a list of n jobs, the side is 0 or 1, and the time is within its limit.
#[tactic(auto, unfolding(codes::specs::Codes::in_range))]
pub fn in_range(n: usize, words: &[u32; logs::RECORD]) -> bool
    ensures { result ≡ in_range (jobs_in n [] [] 0) words.now }
{
    (words[logs::JOB_WORD] as usize) < n
        && words[logs::SIDE_WORD] <= 1
        && words[logs::TIME_WORD] <= screen::MOST_TIME
}

// Whether every member passes the test. Every bit of the set is looked at; `few` lets their number fit. The closure asks at its bit what `asked` says: without
// that line it would be taken to ask that the test may be called on every number.
pub fn every_member<F: Fn(usize) -> bool>(set: &[u32], test: F) -> bool
    requires few { length set.now ≤ set_words }
    requires asked { (k : ℕ) → has set.now k ≡ true → F.pre test k }
    ensures { (f : ℕ → Bool) → ((k : ℕ) (b : Bool) → has set.now k ≡ true → F.post test k b → b ≡ f k) → result ≡ every (λ k. where? (has set.now k) (f k)) (32 * length set.now) }
{
    (0..bits::BITS * set.len()).all(
        |k|
            requires { has set.now k ≡ true → F.pre test k }
        { !bits::has(set, k) || test(k) },
    )
}

// Whether k is in the list, with a duration and a demand.
#[tactic(auto, unfolding(codes::specs::Codes::takes_part))]
fn takes_part(dur: &[u32], dem: &[u32], k: usize) -> bool
    requires { length dem.now ≡ length dur.now }
    ensures { result ≡ takes_part (jobs_in (length dur.now) dur.now dem.now 0) k }
{
    k < dur.len() && 1 <= dur[k] && 1 <= dem[k]
}

// 22: the moved job and every member take part, and the moved job is no member.
pub fn partners(dur: &[u32], dem: &[u32], words: &[u32; logs::RECORD]) -> bool
    requires { length dem.now ≡ length dur.now }
    ensures { result ≡ partners (jobs_in (length dur.now) dur.now dem.now 0) words.now }
{
    let job = words[logs::JOB_WORD] as usize;
    takes_part(dur, dem, job)
        && every_member(logs::set_of(words), |k| takes_part(dur, dem, k) && k != job)
}

// 23: the count word is the number of ones.
pub fn counted(words: &[u32; logs::RECORD]) -> bool
    ensures { result ≡ eqb (words.now ! count_word) (ones_of (set_of_record words.now)) }
{
    words[logs::COUNT_WORD] == bits::count(logs::set_of(words))
}

// 26: the change tightens.
pub fn tightens(est: &[u32], lct: &[u32], words: &[u32; logs::RECORD]) -> bool
    requires { (job_of words.now < length est.now) × (job_of words.now < length lct.now) }
    ensures { result ≡ tightens (win est.now lct.now) (job_of words.now) (side words.now) (time_of words.now) }
{
    let job = words[logs::JOB_WORD] as usize;
    let time = words[logs::TIME_WORD];
    match Side::from(words[logs::SIDE_WORD]) {
        Side::Start => est[job] <= time,
        Side::End => time < lct[job],
    }
}
