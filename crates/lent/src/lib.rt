// The lists that a reader of project texts is lent (document 02, Item 1): whether their lengths fit, and how they are filled.
#![tactic(auto)]

ghost use Rattle.std.specs.Prelude.{ℕ, ◌≤◌, length};
ghost use Rattle.lists.specs.Lists.{◌!◌};
ghost use Rattle.joblist.specs.Limits.{most_jobs};
ghost use Rattle.precedence.specs.Pairs.{coming};
ghost use Rattle.lent.specs.Parts.{RoomSays, Lessened, FilledFrom, Roomy, Wrote};

use precedence::TextPairs;

// The lengths of the six lists.
#[derive(Clone, Copy, Debug, PartialEq, Eq)]
pub struct Sizes {
    pub est: usize,
    pub lct: usize,
    pub dur: usize,
    pub dem: usize,
    pub jobs: usize,
    pub successors: usize,
}

// What the four lists of the jobs are filled from: the longest chains before and after each job, the durations and the demands. It is given by value, as
// it is part of what deciding::decide answers, Decided.
#[derive(Clone, Copy)]
pub struct Draft {
    pub heads: [u32; screen::MOST_JOBS],
    pub tails: [u32; screen::MOST_JOBS],
    pub dur: [u32; screen::MOST_JOBS],
    pub dem: [u32; screen::MOST_JOBS],
}

impl Sizes {
    // Whether the lengths are those wanted for n jobs and m pairs.
    pub fn roomy(self, n: u32, m: usize) -> bool
        ensures { RoomSays self n m result }
    {
        let jobs = n as usize;
        self.est == jobs
            && self.lct == jobs
            && self.dur == jobs
            && self.dem == jobs
            && m <= self.jobs
            && m <= self.successors
    }
}

// The horizon less each chain. By index, since the law of the list that is made, Lessened, is: each place has its own chain. A zip of both was not tried.
fn latest(tails: &[u32; screen::MOST_JOBS], h: u32, to: &mut [u32])
    requires { (length to.old ≤ most_jobs) × ((j : ℕ) → tails.now ! j ≤ h) }
    ensures { Lessened tails.now h to.old to.new }
{
    for (i, x) in to.iter_mut().enumerate() {
        *x = h - tails[i];
    }
}

// The four lists of the jobs: earliest starts, latest ends, durations and demands.
pub fn fill(
    draft: Draft,
    h: u32,
    est: &mut [u32],
    lct: &mut [u32],
    dur: &mut [u32],
    dem: &mut [u32],
)
    requires { ((j : ℕ) → draft.tails ! j ≤ h) × (length est.old ≤ most_jobs) × (length lct.old ≤ most_jobs) × (length dur.old ≤ most_jobs) × (length dem.old ≤ most_jobs) }
    ensures { FilledFrom draft h est.old lct.old dur.old dem.old
        est.new lct.new dur.new dem.new }
{
    windows::restore(&draft.heads, est);
    latest(&draft.tails, h, lct);
    windows::restore(&draft.dur, dur);
    windows::restore(&draft.dem, dem);
}

// The pairs of the text, in its order, where there is room for them. By index, since each pair goes to one place of two lists; zips of both were not tried.
pub fn write_pairs(pairs: TextPairs<'_>, js: &mut [u32], ss: &mut [u32])
    requires { Roomy (coming pairs) js.old ss.old }
    ensures { Wrote (coming pairs.entry) js.old ss.old js.new ss.new }
{
    for (i, (a, b)) in pairs.enumerate() {
        js[i] = a;
        ss[i] = b;
    }
}
