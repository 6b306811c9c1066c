// A step function of time, kept in two lists: points that rise from 0 on, with BEHIND_ALL behind the last one, and beside each point the level of the
// function from it up to the next. It knows nothing of jobs.
#![tactic(auto)]

mod kept; // kept.rt: a function with its number of points and its peak
mod points; // points.rt: the piece in which a time lies, a point put at a time, levels lifted

pub use kept::{Outline, grow, start};
pub use points::find;
