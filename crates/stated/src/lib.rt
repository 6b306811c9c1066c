// Code 25 (document 01, 'Log records'): what a record states of the starts, held against the windows reached so far.
#![tactic(auto)]

ghost use Rattle.std.specs.Prelude.{◌≡◌, [], ◌≤◌, ◌<◌, length};
ghost use Rattle.narrowing.specs.Windows.{win};
ghost use Rattle.joblist.specs.Limits.{most_time};
ghost use Rattle.timetable.specs.Time.{sure};
ghost use Rattle.codes.specs.Codes.{own_true, stated_true};
ghost use Rattle.exam.specs.Lent.{jobs_in, Timed, LetThrough};
ghost use Rattle.windows.specs.Sides.{side_is};

use windows::Side;

// `Timed` is the one word for lists that passed the tests; what each contract asks besides is of its own job, and the bound of the time.

// The moved job's own fact: on side 0 it starts no earlier than t - p + 1, on side 1 no later than t.
fn own_true(est: &[u32], lct: &[u32], dur: &[u32], job: usize, side: Side, t: u32) -> bool
    requires { Timed (win est.now lct.now) dur.now × (job < length dur.now) × (t ≤ most_time) }
    ensures { result ≡ own_true dur.now (win est.now lct.now) job (side_is side) t }
{
    match side {
        Side::Start => windows::no_earlier(est[job], t, dur[job]),
        Side::End => windows::no_later(lct[job], t, dur[job]),
    }
}

// Whether job k starts no earlier than t - p + 1 and no later than t: its sure part holds t.
fn sure(est: &[u32], lct: &[u32], dur: &[u32], k: usize, t: u32) -> bool
    requires { Timed (win est.now lct.now) dur.now × (k < length dur.now) × (t ≤ most_time) }
    ensures { result ≡ sure dur.now (win est.now lct.now) k t }
{
    windows::sure(est[k], lct[k], dur[k], t)
}

// 25: the stated facts are true of the windows.
pub fn stated_true(est: &[u32], lct: &[u32], dur: &[u32], words: &[u32; logs::RECORD]) -> bool
    requires { Timed (win est.now lct.now) dur.now × LetThrough (length dur.now) words.now }
    ensures { result ≡ stated_true (jobs_in 0 dur.now [] 0) (win est.now lct.now) words.now }
{
    let t = words[logs::TIME_WORD];
    let job = words[logs::JOB_WORD] as usize;
    own_true(est, lct, dur, job, Side::from(words[logs::SIDE_WORD]), t)
        && exam::every_member(logs::set_of(words), |k| sure(est, lct, dur, k, t))
}
