// The checker (document 01, 'Answer table'; document 02, Items 3 and 10): it has a log replayed from the submitted windows, and rewrites them only where
// the log holds.
#![tactic(auto)]

ghost use Rattle.std.specs.Prelude.{◌≡◌, [], ◌≤◌, length};
ghost use Rattle.narrowing.specs.Windows.{win};
ghost use Rattle.answers.specs.Said.{says_check};
ghost use Rattle.journal.specs.Journal.{room_of, records};
ghost use Rattle.timetable.specs.Table.{call, Good};
ghost use Rattle.checks.specs.Replay.{replay, finds, judged};
ghost use Rattle.checks.specs.Promise.{Checks};
ghost use Rattle.exam.specs.Lent.{jobs_in};

use answers::{CheckAnswer, Code, Refusal};

// The replay on copies of the windows: the caller's are rewritten only where the log holds. The copies are arrays of the most jobs: the memory is fixed, since
// a call cannot fail, so that no Vec holds them. The planner and the sequencer copy likewise: what they share is `windows::save` and `restore`, and a function
// round the rest would take each one's work, and its answers, as closures.
fn on_copies(
    est: &mut [u32],
    lct: &mut [u32],
    dur: &[u32],
    dem: &[u32],
    cap: u32,
    log: &[u32],
    count: usize,
) -> CheckAnswer
    requires { Good (call (win est.old lct.old) dur.now dem.now cap []) × (count ≤ room_of log.now) }
    ensures { finds (says_check result) (win est.new lct.new) ≡ judged (call (win est.old lct.old) dur.now dem.now cap log.now) count (replay (jobs_in (length dur.now) dur.now dem.now cap) (win est.old lct.old) 0 (records log.now 0 count)) }
{
    let n = est.len();
    let mut starts = [0u32; screen::MOST_JOBS];
    let mut ends = [0u32; screen::MOST_JOBS];
    windows::save(est, &mut starts);
    windows::save(lct, &mut ends);
    match replay::replayed(&mut starts[..n], &mut ends[..n], dur, dem, cap, log, count) {
        Ok(None) => {
            windows::restore(&starts, est);
            windows::restore(&ends, lct);
            CheckAnswer::Holds(count)
        }
        Ok(Some(job)) => CheckAnswer::Clash(count, job),
        Err(bad) => CheckAnswer::Rejected(bad.place, u32::from(bad.code)),
    }
}

// What a log comes to, replayed from the submitted windows. 1 to 3, 7 and 6 refuse the call. Where a window is too short, the answer is a clash of the
// lowest such job if no record is claimed, else the first is rejected with code 20. Where none is, the first bad record is rejected with its place and
// code, and a last record that closes a window is a clash; if there is neither, the log holds, and the windows become those that it reaches. Any number
// may be claimed: it is compared, and never multiplied. The answer's form is bound (01, 'Which form goes where'): it is no Result, so that no `?` returns it.
pub fn check_log(
    est: &mut [u32],
    lct: &mut [u32],
    dur: &[u32],
    dem: &[u32],
    cap: u32,
    log: &[u32],
    count: usize,
) -> CheckAnswer
    ensures { Checks (call (win est.old lct.old) dur.now dem.now cap log.now) count (finds (says_check result) (win est.new lct.new)) }
{
    if let Err(refusal) = admission::refusal(est, lct, dur, dem, cap, log) {
        return CheckAnswer::Refused(u32::from(refusal));
    }
    if logs::room(log) < count {
        return CheckAnswer::Refused(u32::from(Refusal::Claimed));
    }
    if let Some(short) = windows::lowest_too_short(est, lct, dur) {
        return if 0 < count {
            CheckAnswer::Rejected(0, u32::from(Code::Closed))
        } else {
            CheckAnswer::Clash(0, short)
        };
    }
    on_copies(est, lct, dur, dem, cap, log, count)
}
