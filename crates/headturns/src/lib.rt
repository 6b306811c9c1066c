// One turn of the read head's work (document 02, Item 2): at a job's side the move to the farthest bound that the rule gives, with the jobs' order kept.
// Side 1 is side 0 of the windows told the other way round.
#![tactic(auto)]

ghost use Rattle.std.specs.Prelude.{◌<◌, length};
ghost use Rattle.windows.specs.Sides.{side_is};
ghost use Rattle.ahead.specs.Ready.{Ready};
ghost use Rattle.headturns.specs.Turns.{head_lists, Both, TurnOn, TurnSays};

use ahead::Lent;
use screen::{MOST_JOBS, MOST_TIME};
use windows::Side;

// What a turn comes to: the side rests, it moved, or its move would close the window. It is no `turns::Turn`, where a move tells its old bound and a record may
// have no room: here neither is, and `sequencing` would match a case that never comes.
#[derive(Clone, Copy, Debug, PartialEq, Eq)]
pub enum Turn {
    Rests,
    Moved,
    Closed,
}

// One turn on side 0 of the windows with these starts, and these ends counted back. The order by rising start is kept.
fn turn_on(
    starts: &mut [u32],
    ends: &[u32],
    dur: &[u32],
    order: &mut [usize; MOST_JOBS],
    job: usize,
) -> Turn
    requires { Ready (length starts.old) starts.old ends.now dur.now order.old × (job < length starts.old) }
    ensures { TurnOn starts.old ends.now dur.now order.old job starts.new order.new result }
{
    let lent = Lent {
        starts,
        ends,
        dur,
        order,
    };
    let to = lent.start(job);
    // the present start says that no rule applies: `start` ensures `found_or`, and a bound is later
    if to == starts[job] {
        Turn::Rests
    } else if MOST_TIME - ends[job] < to + dur[job] {
        Turn::Closed
    } else {
        sifting::raise(starts, order, job, to);
        Turn::Moved
    }
}

// One turn at a job's side. `fore` has the jobs by rising start, `rear` by their ends counted back.
pub fn take_turn(
    starts: &mut [u32],
    ends: &mut [u32],
    dur: &[u32],
    fore: &mut [usize; MOST_JOBS],
    rear: &mut [usize; MOST_JOBS],
    job: usize,
    side: Side,
) -> Turn
    requires { Both (length starts.old) dur.now (head_lists starts.old ends.old fore.old rear.old) × (job < length starts.old) }
    ensures { TurnSays (length starts.old) dur.now (head_lists starts.old ends.old fore.old rear.old) job (side_is side) (head_lists starts.new ends.new fore.new rear.new) result }
{
    match side {
        Side::Start => turn_on(starts, ends, dur, fore, job),
        Side::End => turn_on(ends, starts, dur, rear, job),
    }
}
