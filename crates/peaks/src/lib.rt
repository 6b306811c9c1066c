// The last and the first time of a stretch at which a kept function lies over a limit. They are looked for only where the peak does, and only at the points:
// from one to the next the function is the same. Where there is none, what is answered is the stretch's own end, and no Option: so `LastWith` and `FirstWith` (`lists`) say
// it, and a caller goes on from there. The two are mirror images and not twins: one walks down to a place before, the other up to one behind. They walk by index,
// since a piece is two points side by side.
#![tactic(auto)]

ghost use Rattle.std.specs.Prelude.{◌<◌, ◌≤◌};
ghost use Rattle.profile.specs.Steps.{behind_all, Points};
ghost use Rattle.peaks.specs.Peaks.{LastOver, FirstOver};

use profile::{Outline, find};

// One more than the last t with a <= t < b over the limit, and a where there is none. Walks the pieces down from the one of b - 1, to that of
// a at most.
pub fn last_over(ts: &[u32], ld: &[u32], kept: Outline, a: u32, b: u32, limit: u32) -> u32
    requires { Points ts.now ld.now kept.m × (a ≤ b) × (b < behind_all) }
    ensures { LastOver ts.now ld.now kept limit a b result }
{
    if kept.peak <= limit || b <= a {
        return a;
    }
    let last = find(ts, kept.m, b - 1);
    for i in (0..last + 1).rev() {
        if limit < ld[i] {
            return b.min(ts[i + 1]);
        }
        if ts[i] <= a {
            break;
        }
    }
    a
}

// The first t with a <= t < b over the limit, and b where there is none. Walks the pieces up from a's, to the last one before b at most.
pub fn first_over(ts: &[u32], ld: &[u32], kept: Outline, a: u32, b: u32, limit: u32) -> u32
    requires { Points ts.now ld.now kept.m × (a ≤ b) × (b < behind_all) }
    ensures { FirstOver ts.now ld.now kept limit a b result }
{
    if kept.peak <= limit || b <= a {
        return b;
    }
    for i in find(ts, kept.m, a)..kept.m {
        if limit < ld[i] {
            return a.max(ts[i]);
        }
        if b <= ts[i + 1] {
            break;
        }
    }
    b
}
