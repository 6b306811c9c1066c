// The call that names the jobs which cannot be done together (document 02, Item 14): the log is judged by the checker alone, which is lent copies of the
// windows; where it ends in a clash, the marks of the walk back are given.
#![tactic(auto)]

ghost use Rattle.std.specs.Prelude.{◌≡◌};
ghost use Rattle.narrowing.specs.Windows.{win};
ghost use Rattle.answers.specs.Said.{number_of, says_check, says_conflict};
ghost use Rattle.timetable.specs.Table.{call, Good};
ghost use Rattle.checks.specs.Replay.{checked};
ghost use Rattle.conflicts.specs.Table.{blame, unmarked};
ghost use Rattle.conflicts.specs.Promise.{Blames};

use answers::{CheckAnswer, Conflict, Refusal};

// A refusal leaves no mark.
fn refused(refusal: Refusal) -> Conflict
    ensures { blame (says_conflict result.answer) result.set ≡ unmarked (number_of refusal) }
{
    Conflict {
        answer: Err(refusal),
        set: bits::empty(),
    }
}

// What the checker answers. It is lent copies, so that the windows are only read. The planner, the sequencer and the checker make such copies too, but to
// write them back, in arrays of the most jobs, since fixed memory has no Vec: what all four share is `windows::save`, and a function round the rest would take
// each call's work and end as closures.
fn check_copies(
    est: &[u32],
    lct: &[u32],
    dur: &[u32],
    dem: &[u32],
    cap: u32,
    log: &[u32],
    count: usize,
) -> CheckAnswer
    requires { Good (call (win est.now lct.now) dur.now dem.now cap log.now) }
    ensures { says_check result ≡ (checked (call (win est.now lct.now) dur.now dem.now cap log.now) count).says }
{
    let n = est.len();
    let mut starts = [0u32; screen::MOST_JOBS];
    let mut ends = [0u32; screen::MOST_JOBS];
    windows::save(est, &mut starts);
    windows::save(lct, &mut ends);
    checker::check_log(&mut starts[..n], &mut ends[..n], dur, dem, cap, log, count)
}

// The jobs that a clash log names as those that cannot be done together, as a member set, and how many they are. 1 to 3, 7 and 6 refuse the call as the
// checker does; 8 where the log is rejected or ends in no clash. Nothing that is lent is written.
pub fn conflict(
    est: &[u32],
    lct: &[u32],
    dur: &[u32],
    dem: &[u32],
    cap: u32,
    log: &[u32],
    count: usize,
) -> Conflict
    ensures { Blames (call (win est.now lct.now) dur.now dem.now cap log.now) count (blame (says_conflict result.answer) result.set) }
{
    if let Err(refusal) = admission::refusal(est, lct, dur, dem, cap, log) {
        return refused(refusal);
    }
    match check_copies(est, lct, dur, dem, cap, log, count) {
        CheckAnswer::Clash(_, job) => marker::marks(log, count, job),
        // its number is a u32 by 01, and always that of `Claimed`: what else the checker refuses, the admission has refused (`on_refused` in proofs/)
        CheckAnswer::Refused(_) => refused(Refusal::Claimed),
        CheckAnswer::Holds(_) | CheckAnswer::Rejected(_, _) => refused(Refusal::NoClash),
    }
}
