// The order of a text's jobs: its pairs one by one, cycles, and the longest chains before and after each job (document 02, Item 1). Each round
// reads the text again.
#![tactic(auto)]

mod text_pairs;

ghost use Rattle.std.specs.Prelude.{◌≡◌, List, ℕ, ◌≤◌, length, replicate};
ghost use Rattle.lists.specs.Lists.{◌!◌};
ghost use Rattle.joblist.specs.Limits.{most_time, most_jobs};
ghost use Rattle.chains.specs.Paths.{Pair, Precedes, Below};
ghost use Rattle.texts.specs.Tokens.{Token};
ghost use Rattle.texts.specs.Readings.{good};
ghost use Rattle.precedence.specs.Pairs.{coming};
ghost use Rattle.precedence.specs.Chains.{ExceedsSays, OrderSays};

use answers::Refusal;
use passes::settle;
pub use text_pairs::TextPairs;

// Whether some value plus its job's duration is above h. A loop, since what is said of the values is said of jobs by their index; any was not tried.
fn exceeds(v: &[u32; screen::MOST_JOBS], p: &[u32; screen::MOST_JOBS], n: u32, h: u32) -> bool
    requires n_le_most_jobs { n ≤ most_jobs }
    requires by_index { ((j : ℕ) → v.now ! j ≤ most_time) × ((j : ℕ) → p.now ! j ≤ most_time) }
    ensures { ExceedsSays v.now p.now n h result }
{
    for j in 0..n as usize {
        if h < v[j] + p[j] {
            return true;
        }
    }
    false
}

// The longest chains before and after each job; or there is a cycle, or a chain longer than h. A cycle is found by steps counted in place of durations:
// without one, no chain has as many steps as there are jobs.
pub fn longest_chains(
    pairs: TextPairs<'_>,
    dur: &[u32; screen::MOST_JOBS],
    h: u32,
    heads: &mut [u32; screen::MOST_JOBS],
    tails: &mut [u32; screen::MOST_JOBS],
) -> Result<(), Refusal>
    requires n_le_most_jobs { (heads.old ≡ replicate most_jobs 0) × (tails.old ≡ replicate most_jobs 0) × (h ≤ most_time) }
    requires by_index { (j : ℕ) → dur.now ! j ≤ most_time }
    ensures { ((ps : List Pair) (end : List Token) → coming pairs.entry ≡ good ps end → Below pairs.entry.n (Precedes ps)
        → OrderSays ps pairs.entry.n dur.now h heads.new tails.new result)
        × (length heads.new ≡ most_jobs) × (length tails.new ≡ most_jobs) }
{
    let n = pairs.n;
    let steps = [1u32; screen::MOST_JOBS];
    let mut levels = [0u32; screen::MOST_JOBS];
    if !settle(pairs, &steps, false, n, &mut levels) {
        return Err(Refusal::Cycle);
    }
    if !settle(pairs, dur, false, h, heads) {
        return Err(Refusal::Horizon);
    }
    if !settle(pairs, dur, true, h, tails) {
        return Err(Refusal::Horizon);
    }
    if exceeds(heads, dur, n, h) {
        return Err(Refusal::Horizon);
    }
    Ok(())
}
