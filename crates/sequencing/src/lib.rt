// The work of the read head (document 01, 'Order of work'; document 02, Item 2): rounds over the jobs by rising number, for each job side 0 until it rests,
// then side 1.
#![tactic(auto)]

ghost use Rattle.std.specs.Prelude.{length};
ghost use Rattle.narrowing.specs.Windows.{win, Long};
ghost use Rattle.heads.specs.Promise.{GoodHead};
ghost use Rattle.mirrors.specs.Back.{told};
ghost use Rattle.headturns.specs.Turns.{head_lists, Both};
ghost use Rattle.sequencing.specs.Work.{Works};

use answers::Answer;
use headturns::Turn;
use places::Place;
use screen::MOST_JOBS;

// Turns until a round has changed nothing, or a move closes a window, on windows told from both ends. What falls with each turn is the moves that may still
// come, then whether another round is to follow, then what is left of this one. It never refuses, and returns an Answer since `Works` is said of the answer.
// `rounds::work` walks the places alike: one loop for both would be generic over the state that a turn moves, here windows and orders, there windows, load and
// log, over the turn function, and over the relation of run, answer and state that it keeps; each of the two would tell it all that, and be longer than its loop.
fn take_turns(
    starts: &mut [u32],
    ends: &mut [u32],
    dur: &[u32],
    fore: &mut [usize; MOST_JOBS],
    rear: &mut [usize; MOST_JOBS],
) -> Answer
    requires { Both (length starts.old) dur.now (head_lists starts.old ends.old fore.old rear.old) × Long (length starts.old) dur.now (told starts.old ends.old) }
    ensures works { Works (told starts.old ends.old) dur.now result (told starts.new ends.new) }
    ensures both { Both (length starts.old) dur.now (head_lists starts.new ends.new fore.new rear.new) }
{
    let n = starts.len();
    let mut at = Place::first();
    let mut count = 0;
    while at.job < n {
        let turn = headturns::take_turn(starts, ends, dur, fore, rear, at.job, at.side);
        match turn {
            Turn::Rests => {
                at = at.onward(n);
            }
            Turn::Moved => {
                at = Place {
                    changed: true,
                    ..at
                };
                count += 1;
            }
            Turn::Closed => {
                return Answer::Clash(count + 1, at.job);
            }
        }
    }
    Answer::Settled(count)
}

// The work of a good list whose windows are long enough. Latest ends are counted back while it lasts, and the jobs are put in order once for each side.
pub fn work(est: &mut [u32], lct: &mut [u32], dur: &[u32]) -> Answer
    requires { GoodHead (win est.old lct.old) dur.now × Long (length est.old) dur.now (win est.old lct.old) }
    ensures { Works (win est.old lct.old) dur.now result (win est.new lct.new) }
{
    // The lists are arrays: the memory is fixed, since a call cannot fail, so that no Vec holds them.
    let mut fore = [0usize; MOST_JOBS];
    let mut rear = [0usize; MOST_JOBS];
    mirrors::count_back(lct);
    placing::order(est, &mut fore);
    placing::order(lct, &mut rear);
    let answer = take_turns(est, lct, dur, &mut fore, &mut rear);
    mirrors::count_back(lct);
    answer
}
