// The values of jobs raised along pairs, in code (document 02, Item 1): one pair's step, a round of such steps, and rounds until nothing changes. A value is a
// chain's length; after m rounds every chain of m steps is met, so that there are no more rounds than the longest chain has jobs, and one in which nothing
// changes; where there is a cycle, no more than there are jobs and one. It is the same wherever the pairs are read from.
#![tactic(auto)]

ghost use Rattle.std.specs.Prelude.{◌≡◌, ℕ, ◌≤◌, ◌<◌, List, Option, length, replicate, cond};
ghost use Rattle.std.specs.Iterator.{IsFinite};
ghost use Rattle.lists.specs.Lists.{◌!◌};
ghost use Rattle.joblist.specs.Limits.{most_time, most_jobs};
ghost use Rattle.chains.specs.Paths.{Pair};
ghost use Rattle.texts.specs.Readings.{Read};
ghost use Rattle.passes.specs.Rounds.{Drawn, RiseSays, RoundSays, SettleSays};

// Pairs that are read one by one, job and successor, and can be read again: `coming` is the reading of those still to come.
pub trait Pairs: Iterator<Item = (u32, u32)> + Copy {
    ghost coming: { Self → Read (List Pair) };

    ghost draws: { (s : Self) (r : Option (ℕ × ℕ)) (t : Self) → Self.next_gives s r t → Drawn (coming s) r (coming t) };

    ghost ends: { (s : Self) → IsFinite (Self.remaining s) };
}

// A value stays; it is raised; it would rise above the limit.
#[derive(Clone, Copy, Debug, PartialEq, Eq)]
pub enum Rise {
    Kept,
    Rose,
    High,
}

// A round in which nothing changed; in which something did; which met a chain above the limit.
#[derive(Clone, Copy, Debug, PartialEq, Eq)]
pub enum Round {
    Same,
    Changed,
    Over,
}

// Raises the value at b to the one at a plus x, up to `top`.
#[inline(always)]
fn lift(v: &mut [u32; screen::MOST_JOBS], a: u32, b: u32, x: u32, top: u32) -> Rise
    requires { (a < most_jobs) × (b < most_jobs) × (v.old ! a ≤ most_time) × (x ≤ most_time) }
    ensures { RiseSays v.old v.new a b x top result × (length v.new ≡ most_jobs) }
{
    let i = a as usize;
    let j = b as usize;
    let y = v[i] + x;
    if y <= v[j] {
        return Rise::Kept;
    }
    if top < y {
        return Rise::High;
    }
    v[j] = y;
    Rise::Rose
}

// A pair from its job to its successor; or, for chains after a job, the other way round. A bool, as in RoundSays and SettleSays: pairs turned round by an
// adaptor would be a second Iterator and Pairs with laws of its own, in place of this one line.
#[inline(always)]
fn facing(back: bool, a: u32, b: u32) -> (u32, u32)
    ensures { (result.0 ≡ cond back b a) × (result.1 ≡ cond back a b) }
{
    if back { (b, a) } else { (a, b) }
}

// One round over the pairs.
#[inline(always)]
fn relax<P: Pairs>(
    pairs: P,
    p: &[u32; screen::MOST_JOBS],
    back: bool,
    top: u32,
    v: &mut [u32; screen::MOST_JOBS],
) -> Round
    requires can { P.can_next pairs }
    requires n_le_most_jobs { top ≤ most_time }
    requires by_index { ((j : ℕ) → p.now ! j ≤ most_time) × ((j : ℕ) → v.old ! j ≤ top) }
    ensures { RoundSays (P.coming pairs) p.now back top v.old v.new result × (length v.new ≡ most_jobs) }
{
    let mut changed = false;
    for (a, b) in pairs {
        let (i, j) = facing(back, a, b);
        let x = p[i as usize];
        match lift(v, i, j, x, top) {
            Rise::Kept => {}
            Rise::Rose => changed = true,
            Rise::High => return Round::Over,
        }
    }
    if changed { Round::Changed } else { Round::Same }
}

// Rounds until nothing changes: true; or until a chain is longer than `top`: false. The sum of the values rises with each round. A bool, since a false is
// three things to those that call: a cycle, Refusal::Cycle, Refusal::Horizon; an error of its own would be turned into these at each call.
#[inline(always)]
pub fn settle<P: Pairs>(
    pairs: P,
    p: &[u32; screen::MOST_JOBS],
    back: bool,
    top: u32,
    v: &mut [u32; screen::MOST_JOBS],
) -> bool
    requires can { P.can_next pairs }
    requires start { (v.old ≡ replicate most_jobs 0) × (top ≤ most_time) }
    requires by_index { (j : ℕ) → p.now ! j ≤ most_time }
    ensures { ((n : ℕ) → n ≤ most_jobs → SettleSays (P.coming pairs) n p.now back top v.new result) × (length v.new ≡ most_jobs) }
{
    loop {
        match relax(pairs, p, back, top, v) {
            Round::Same => return true,
            Round::Over => return false,
            Round::Changed => {}
        }
    }
}
