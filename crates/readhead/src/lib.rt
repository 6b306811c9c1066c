// One job at a time (01; 02, Item 3): the overload check by 001's Theta-tree.
#![tactic(auto)]

mod sweep; // sweep.rt: the jobs put in by rising latest end

ghost use Rattle.std.specs.Prelude.{◌≡◌, length};
ghost use Rattle.answers.specs.Said.{says_overload};
ghost use Rattle.narrowing.specs.Windows.{win};
ghost use Rattle.overloads.specs.Overload.{overload, found_said};
ghost use Rattle.overloads.specs.Promise.{Good, Overloads};

use crate::sweep::sweep;
use answers::{Overload, Refusal};
use placing::{order, places};
use screen::MOST_JOBS;

// What a good list has: the two orders of its jobs are made, and the tree is swept.
fn find(est: &[u32], lct: &[u32], dur: &[u32]) -> Option<Overload>
    requires { Good (win est.now lct.now) dur.now }
    ensures { says_overload (Ok result) ≡ found_said (overload (length est.now) dur.now (win est.now lct.now)) }
{
    // The lists are arrays: the memory is fixed, since a call cannot fail, so that no Vec holds them. They are three, and no array of structs: `order` and `places`
    // fill one each, and `Ordered` and `Placed` are said of a list.
    let mut place = [0usize; MOST_JOBS];
    let mut starts = [0usize; MOST_JOBS];
    let mut stops = [0usize; MOST_JOBS];
    order(lct, &mut stops);
    order(est, &mut starts);
    places(est, &starts, &mut place);
    sweep(est, lct, dur, &place, &starts, &stops)
}

// The overload check: none, the pair a, b, or refusal 1 to 3.
pub fn overload(est: &[u32], lct: &[u32], dur: &[u32]) -> Result<Option<Overload>, Refusal>
    ensures { Overloads (win est.now lct.now) dur.now (says_overload result) }
{
    screen::refusal_of_three(est, lct, dur)?;
    Ok(find(est, lct, dur))
}
