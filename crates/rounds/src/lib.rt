// The work (document 01, 'Order of work'): rounds over the jobs by rising number, for each job side 0 until it rests, then side 1.
#![tactic(auto)]

ghost use Rattle.narrowing.specs.Windows.{win};
ghost use Rattle.timetable.specs.Table.{call, Workable};
ghost use Rattle.rounds.specs.Work.{Works};

use answers::{Answer, Refusal};
use places::Place;
use searches::Load;
use turns::Turn;

// The points that the kept load has room for: about twice as many as the windows of any list need. A move adds two at most, and none is taken away until
// the load is built anew. The memory is fixed, since a call cannot fail, so that no Vec holds them.
const POINTS: usize = 4 * screen::MOST_JOBS;

// The work of a good list whose windows are long enough: turns until a round has changed nothing, a move closes a window, or there is no room. The load of
// all jobs is kept from move to move. What falls with each turn is the room left, then whether another round is to follow, then what is left of this one.
// The read head's work (`sequencing`) walks the places alike. One loop over a trait of turns would make each work a struct of all its lent lists, and each
// clause would carry their ghost names: it is judged longer than both loops, and was not tried. The answer is an Answer, Refused too, since Works speaks of it.
pub fn work(
    est: &mut [u32],
    lct: &mut [u32],
    dur: &[u32],
    dem: &[u32],
    cap: u32,
    log: &mut [u32],
) -> Answer
    requires { Workable (call (win est.old lct.old) dur.now dem.now cap log.old) }
    ensures { Works (call (win est.old lct.old) dur.now dem.now cap log.old) result (win est.new lct.new) log.new }
{
    let n = est.len();
    let mut ts = [0u32; POINTS];
    let mut ld = [0u32; POINTS];
    let mut kept = loads::build(est, lct, dur, dem, &mut ts, &mut ld);
    let mut at = Place::first();
    let mut count = 0;
    while at.job < n {
        let load = Load {
            ts: &ts,
            ld: &ld,
            kept,
        };
        match turns::take_turn(est, lct, dur, dem, cap, log, at, count, load) {
            Turn::Rests => {
                at = at.onward(n);
            }
            Turn::Moved(old) => {
                kept = loads::follow(
                    est, lct, dur, dem, at.job, at.side, old, &mut ts, &mut ld, kept,
                );
                at = Place {
                    changed: true,
                    ..at
                };
                count += 1;
            }
            Turn::Closed => {
                return Answer::Clash(count + 1, at.job);
            }
            Turn::Full => {
                return Answer::Refused(u32::from(Refusal::Room));
            }
        }
    }
    Answer::Settled(count)
}
