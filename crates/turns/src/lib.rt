// One turn of the work (document 01, 'Order of work'): at a place of a round, a job and its side, the move with its record, if a rule applies and there is
// room.
#![tactic(auto)]

ghost use Rattle.std.specs.Prelude.{◌≡◌, ◌<◌, ◌≤◌, length};
ghost use Rattle.narrowing.specs.Windows.{win};
ghost use Rattle.timetable.specs.Table.{call, Workable};
ghost use Rattle.loads.specs.Loads.{Loaded};
ghost use Rattle.turns.specs.Moves.{TurnSays};

use places::Place;
use searches::{JobList, Load};

// What a turn at a place comes to: its side rests, it moved from a bound, the move closed the window, or there is no room for its record.
#[derive(Clone, Copy, Debug, PartialEq, Eq)]
pub enum Turn {
    Rests,
    Moved(u32),
    Closed,
    Full,
}

// One turn at a place, with so many records behind it: the side's move with its record, if a rule applies and there is room. The lists come one by one, since
// `est` and `lct` are lent to be written (`windows::shift`), and a JobList lends them only to be read; it is made here of them.
pub fn take_turn(
    est: &mut [u32],
    lct: &mut [u32],
    dur: &[u32],
    dem: &[u32],
    cap: u32,
    log: &mut [u32],
    at: Place,
    count: usize,
    load: Load<'_>,
) -> Turn
    requires { Workable (call (win est.old lct.old) dur.now dem.now cap log.old) × (at.job < length est.old) × Loaded (win est.old lct.old) dur.now dem.now load.ts.now load.ld.now load.kept }
    ensures { TurnSays (call (win est.old lct.old) dur.now dem.now cap log.old) at count (win est.new lct.new) log.new result }
{
    let job = at.job;
    let side = at.side;
    let list = JobList {
        est,
        lct,
        dur,
        dem,
        cap,
    };
    let Some(t) = searches::next_time(list, job, side, load) else {
        return Turn::Rests;
    };
    if logs::room(log) <= count {
        return Turn::Full;
    }
    noting::note(list, job, side, t, log, count);
    let old = windows::shift(est, lct, job, side, t);
    if windows::closed(est, lct, dur, job) {
        Turn::Closed
    } else {
        Turn::Moved(old)
    }
}
