// A function kept: from nothing, and raised on a stretch.
ghost use Rattle.std.specs.Prelude.{◌≡◌, ◌<◌, length};
ghost use Rattle.profile.specs.Keeps.{Growable, Starts, Grows};

use crate::points::{BEHIND_ALL, cut, lift};

// How many points there are, and a level that the function nowhere passes. It stands beside the two lists, which the caller lends and `grow` writes, and what is
// kept is said of lists (`profile: Keeps`); where the three are only read, `searches` has them in one struct.
#[derive(Clone, Copy)]
pub struct Outline {
    pub m: usize,
    pub peak: u32,
}

// The function that is 0 everywhere.
pub fn start(ts: &mut [u32], ld: &mut [u32]) -> Outline
    requires { (1 < length ts.old) × (length ld.old ≡ length ts.old) }
    ensures { Starts ts.old ts.new ld.new result }
{
    ts[0] = 0;
    ts[1] = BEHIND_ALL;
    ld[0] = 0;
    Outline { m: 1, peak: 0 }
}

// The function raised by r from lo up to hi; as it is, where lo is not before hi.
pub fn grow(ts: &mut [u32], ld: &mut [u32], kept: Outline, lo: u32, hi: u32, r: u32) -> Outline
    requires { Growable ts.old ld.old kept hi r }
    ensures { Grows ts.old ld.old kept lo hi r ts.new ld.new result }
{
    if hi <= lo {
        return kept;
    }
    let from = cut(ts, ld, kept.m, lo);
    let to = cut(ts, ld, from.m, hi);
    let top = lift(ld, from.at, to.at, r, kept.peak);
    Outline { m: to.m, peak: top }
}
