// The jobs go into the tree by rising latest end, ALL jobs of one latest end before that end is tested.
ghost use Rattle.std.specs.Prelude.{◌≡◌, ◌*◌, ◌-◌, ◌≤◌, ◌<◌, length};
ghost use Rattle.answers.specs.Said.{says_overload};
ghost use Rattle.joblist.specs.Limits.{most_jobs};
ghost use Rattle.narrowing.specs.Windows.{win};
ghost use Rattle.lists.specs.Lists.{◌!◌};
ghost use Rattle.lists.specs.Orders.{Ordered};
ghost use Rattle.overloads.specs.Overload.{overload, found_said};
ghost use Rattle.theta.specs.Theta.{end_of, descent, depth};
ghost use Rattle.readhead.specs.Sweep.{tied, due, Sorted, LeafTaken};

use answers::Overload;
use screen::MOST_JOBS;
use theta::Tree;

// Whether place k of the order has a job of the latest end b. What this and `due` ask is no ghost field of a struct that lends lct and stops: `sweep`, which has
// both lists for itself besides, would build it for two tests of a line.
fn tied(lct: &[u32], stops: &[usize; MOST_JOBS], k: usize, b: u32) -> bool
    requires { (length lct.now ≤ most_jobs) × (Ordered lct.now (length lct.now) stops.now) }
    ensures { result ≡ tied (length lct.now) lct.now stops.now k b }
{
    k < lct.len() && lct[stops[k]] == b
}

// Whether the latest end b is to be tested, no job of it being next, and exceeded.
fn due(lct: &[u32], stops: &[usize; MOST_JOBS], k: usize, b: u32, tree: &Tree) -> bool
    requires { (length lct.now ≤ most_jobs) × (Ordered lct.now (length lct.now) stops.now) }
    ensures { result ≡ due (length lct.now) lct.now stops.now k b (end_of tree.now.ends 1) }
{
    !tied(lct, stops, k, b) && tree.exceeds(1, 0, b)
}

// The earliest start at the leaf where the descent ends.
fn start_of(est: &[u32], starts: &[usize; MOST_JOBS], tree: &Tree, b: u32) -> u32
    requires { LeafTaken est.now starts.now (descent tree.now.sums tree.now.ends b depth 1 0) }
    ensures { result ≡ est.now ! (starts.now ! (descent tree.now.sums tree.now.ends b depth 1 0 - most_jobs)) }
{
    let leaf = tree.descend(b);
    est[starts[leaf - MOST_JOBS]]
}

// The first pair that the sweep meets, by the least b and for it the greatest a, or none.
pub fn sweep(
    est: &[u32],
    lct: &[u32],
    dur: &[u32],
    place: &[usize; MOST_JOBS],
    starts: &[usize; MOST_JOBS],
    stops: &[usize; MOST_JOBS],
) -> Option<Overload>
    requires { Sorted est.now lct.now dur.now place.now starts.now stops.now }
    ensures { says_overload (Ok result) ≡ found_said (overload (length est.now) dur.now (win est.now lct.now)) }
{
    let mut tree = Tree::new();
    for k in 0..est.len() {
        let j = stops[k];
        let b = lct[j];
        tree.put(place[j], est[j], dur[j]);
        if due(lct, stops, k + 1, b, &tree) {
            let a = start_of(est, starts, &tree, b);
            return Some(Overload { a, b });
        }
    }
    None
}
