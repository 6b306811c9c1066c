// The answers of the desk's calls. `says` in specs/ gives each one in the paper's words and numbers.
#![tactic(auto)]

mod reasons; // reasons.rt: why a call is refused, and why a record is bad

pub use reasons::{Code, Refusal};

// Narrowing: the record count; the record count and the job; the refusal's number. Document 01 binds this form and the next ('Which form goes where').
#[derive(Drop)]
pub enum Answer {
    Settled(usize),
    Clash(usize, usize),
    Refused(u32),
}

// The checker: the record count; the record count and the job; the bad record's place and its code; the refusal's number.
#[derive(Drop)]
pub enum CheckAnswer {
    Holds(usize),
    Clash(usize, usize),
    Rejected(usize, u32),
    Refused(u32),
}

// An overload: its pair a, b. The check answers with one or none, or a refusal.
#[derive(Clone, Copy, Debug, PartialEq, Eq)]
pub struct Overload {
    pub a: u32,
    pub b: u32,
}

// A project text that was read: the capacity and the pair count.
#[derive(Clone, Copy, Debug, PartialEq, Eq)]
pub struct ProjectRead {
    pub capacity: u32,
    pub pairs: usize,
}

// What the call gives that names the jobs which cannot be done together: how many are marked, or a refusal, and the marked jobs as a member set. The set
// stands beside the result, and not in its Ok, since on a refusal it is promised too: all zeros (`conflicts: Table.unmarked`).
#[derive(Drop)]
pub struct Conflict {
    pub answer: Result<u32, Refusal>,
    pub set: [u32; bits::WORDS],
}
