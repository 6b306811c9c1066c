// Pairs that are lent as two lists, jobs and successors (document 02, Item 13): whether they are of the jobs and in strictly rising order, and whether
// there is a cycle along them.
#![tactic(auto)]

ghost use Rattle.std.specs.Prelude.{◌≡◌, ℕ, ◌≤◌, ◌<◌, MatchOption, length};
ghost use Rattle.joblist.specs.Limits.{most_jobs};
ghost use Rattle.chains.specs.Listed.{PairInRange};
ghost use Rattle.listed.specs.Listed.{PlacedSays, RisingSays, CycleSays};

use passes::Pairs;

// A step for each job, where steps are counted and not durations.
const STEPS: [u32; screen::MOST_JOBS] = [1; screen::MOST_JOBS];

// The pairs of two lists of one length, in their order.
#[derive(Clone, Copy)]
pub struct Listed<'a> {
    pub jobs: &'a [u32],
    pub successors: &'a [u32],
    ghost even: { length successors.now ≡ length jobs.now },
}

impl<'a> Iterator for Listed<'a> {
    type Item = (u32, u32);

    ghost use Rattle.std.specs.Prelude.{length};
    ghost use Rattle.std.specs.Iterator.{at_most};
    ghost use Rattle.passes.specs.Rounds.{Drawn};
    ghost use Rattle.listed.specs.Listed.{read_pairs, OfJobs};

    ghost can_next = { λ s. OfJobs s.jobs.now s.successors.now };

    ghost next_gives = { λ s r t. Drawn (read_pairs s.jobs.now s.successors.now) r (read_pairs t.jobs.now t.successors.now) };

    ghost remaining = { λ s. at_most (length s.jobs.now) };

    // By index in the second list, which is as long as the first (`even`): so that its end is not asked for as well.
    #[inline(always)]
    fn next(&mut self) -> Option<(u32, u32)> {
        let (a, jobs) = self.jobs.split_first()?;
        let b = self.successors[0];
        self.successors = &self.successors[1..];
        self.jobs = jobs;
        Some((*a, b))
    }
}

impl<'a> Pairs for Listed<'a> {
    ghost use Rattle.listed.specs.Listed.{read_pairs};

    ghost coming = { λ s. read_pairs s.jobs.now s.successors.now };

    ghost draws = { λ s r t q. q };

    ghost ends = { λ s. tt };
}

impl<'a> Listed<'a> {
    // The pairs, where the lists are of one length.
    pub fn new(jobs: &'a [u32], successors: &'a [u32]) -> Option<Listed<'a>>
        ensures { MatchOption result (length successors.now ≡ length jobs.now → ⊥) (λ pairs. (pairs.jobs.now ≡ jobs.now) × (pairs.successors.now ≡ successors.now)) }
    {
        if successors.len() == jobs.len() {
            Some(Listed { jobs, successors })
        } else {
            None
        }
    }

    // Whether the pair at place i is of the n jobs and comes before the next, where there is one. By places: PlacedSays is of the lists at i and i + 1.
    fn placed(&self, n: u32, i: usize) -> bool
        requires { i < length self.now.jobs.now }
        ensures { PlacedSays n self.now.jobs.now self.now.successors.now i result }
    {
        let (a, b) = (self.jobs[i], self.successors[i]);
        let k = i + 1;
        a < n && b < n && (k == self.jobs.len() || (a, b) < (self.jobs[k], self.successors[k]))
    }

    // Whether every pair is of the n jobs, and they are in strictly rising order. A loop, since `placed` asks that its place is in the list, which the range
    // of a `for` says; `all` was not tried.
    pub fn rising(&self, n: u32) -> bool
        ensures { RisingSays n self.now.jobs.now self.now.successors.now result }
    {
        for at in 0..self.jobs.len() {
            if !self.placed(n, at) {
                return false;
            }
        }
        true
    }

    // Whether there is a cycle: steps are counted, and without a cycle no chain has as many as there are jobs.
    pub fn has_cycle(&self, n: u32) -> bool
        requires n_le_most_jobs { n ≤ most_jobs }
        requires by_index { (i : ℕ) → i < length self.now.jobs.now → PairInRange n self.now.jobs.now self.now.successors.now i }
        ensures { CycleSays self.now.jobs.now self.now.successors.now result }
    {
        let mut levels = [0u32; screen::MOST_JOBS];
        !passes::settle(*self, &STEPS, false, n, &mut levels)
    }
}
