// Narrowing (document 01, 'Answer table'; document 02, Items 3 and 10): the call, on copies of the windows. The crate `rounds` does the work, turn by turn.
#![tactic(auto)]

ghost use Rattle.narrowing.specs.Windows.{win};
ghost use Rattle.answers.specs.Said.{says};
ghost use Rattle.timetable.specs.Table.{call, leaves};
ghost use Rattle.timetable.specs.Promise.{Narrows};

use answers::Answer;

// Narrowing of a job list, for any numbers whatever. The work is done on copies of the windows, and the caller's are written only where it settles.
pub fn narrow(
    est: &mut [u32],
    lct: &mut [u32],
    dur: &[u32],
    dem: &[u32],
    cap: u32,
    log: &mut [u32],
) -> Answer
    ensures { Narrows (call (win est.old lct.old) dur.now dem.now cap log.old) (leaves (says result) (win est.new lct.new) log.new) }
{
    if let Err(refusal) = admission::refusal(est, lct, dur, dem, cap, log) {
        return Answer::Refused(u32::from(refusal));
    }
    if let Some(short) = windows::lowest_too_short(est, lct, dur) {
        return Answer::Clash(0, short);
    }
    // the copies are arrays of the most jobs: the memory is fixed, since a call cannot fail, so that no Vec holds them
    let n = est.len();
    let mut e = [0u32; screen::MOST_JOBS];
    let mut l = [0u32; screen::MOST_JOBS];
    windows::save(est, &mut e);
    windows::save(lct, &mut l);
    let end = rounds::work(&mut e[..n], &mut l[..n], dur, dem, cap, log);
    match end {
        Answer::Settled(_) => {
            windows::restore(&e, est);
            windows::restore(&l, lct);
        }
        Answer::Clash(_, _) => {}
        Answer::Refused(_) => logs::clear(log),
    }
    end
}
