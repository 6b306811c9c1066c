// The read head (document 02, Items 2 and 3): the call, on copies of the windows. The crate `sequencing` does the work, turn by turn.
#![tactic(auto)]

ghost use Rattle.narrowing.specs.Windows.{win};
ghost use Rattle.answers.specs.Said.{says};
ghost use Rattle.heads.specs.Promise.{left, Sequences};

use answers::Answer;

// Windows narrowed by detectable precedences, for any numbers whatever. The work is done on copies of the windows, and the caller's are written only where
// it settles. The copies are arrays, since the memory is fixed. `planner::narrow` makes such copies too: what both share is `windows::save` and `restore`. A function
// round the rest would take the tests, the work on the copies and what a refusal leaves of the log as closures, and the relation that the work keeps, `Works`,
// which differs in each: their contracts are longer than these lines.
pub fn sequence(est: &mut [u32], lct: &mut [u32], dur: &[u32]) -> Answer
    ensures { Sequences (win est.old lct.old) dur.now (left (says result) (win est.new lct.new)) }
{
    if let Err(refusal) = screen::refusal_of_three(est, lct, dur) {
        return Answer::Refused(u32::from(refusal));
    }
    if let Some(short) = windows::lowest_too_short(est, lct, dur) {
        return Answer::Clash(0, short);
    }
    let n = est.len();
    let mut e = [0u32; screen::MOST_JOBS];
    let mut l = [0u32; screen::MOST_JOBS];
    windows::save(est, &mut e);
    windows::save(lct, &mut l);
    let end = sequencing::work(&mut e[..n], &mut l[..n], dur);
    if let Answer::Settled(_) = end {
        windows::restore(&e, est);
        windows::restore(&l, lct);
    }
    end
}
