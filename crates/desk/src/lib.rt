// The public face of the planner: the calls of document 01, the calls of document 02 that are built, and nothing else. A user names `desk answers` (an
// answer can be matched on only where the crate that declares it is named). Each call takes any numbers whatever; its contract stands where it is
// declared.
#![tactic(auto)]

pub use checker::check_log;
pub use layouts::{read_patterson, read_psplib};
pub use logs::show_record;
pub use planner::narrow;
pub use readhead::overload;
pub use sequencer::sequence;
pub use tracer::conflict;
pub use writing::write_patterson;
