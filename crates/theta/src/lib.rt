// 001's Theta-tree: the total duration and the completion of each node. A leaf is filled, and the nodes above it are made right, towards the root.
#![tactic(auto)]

ghost use Rattle.std.specs.Prelude.{◌≡◌, ◌+◌, ◌*◌, ◌≤◌, ◌<◌, ◌+ℤ◌, pos, set, replicate};
ghost use Rattle.std.specs.Int.Signed.{mag, lt_z};
ghost use Rattle.joblist.specs.Limits.{most_jobs, most_time};
ghost use Rattle.theta.specs.Theta.{Nodes, Sound, far, empty, end_of, Climbed, descent, depth};

use std::cmp::max;
use std::marker::Model;

// The most jobs, and so the number of the tree's leaves.
const MOST: usize = screen::MOST_JOBS;

// The tree's nodes: 1 is the root, 2v and 2v + 1 are v's children, 0 is none.
pub const NODES: usize = 2 * MOST;

// An empty node's completion: below every time in use, whatever total duration comes after it.
pub const EMPTY: i64 = -1_000_000_000_000;

// Whether a completion with a tail after it exceeds b.
pub fn exceeds(end: i64, tail: u32, b: u32) -> bool
    requires { mag end ≤ 2 * far }
    ensures { result ≡ lt_z (pos b) (end +ℤ pos tail) }
{
    i64::from(b) < end + i64::from(tail)
}

// The arrays are in range and every inner node is what its children say: no caller has to ask for it. They are two, and no array of nodes, since `Climbed`,
// `descent` and `Sound` are said of a list of sums and a list of ends.
#[derive(Drop)]
pub struct Tree {
    sums: [u32; NODES],
    ends: [i64; NODES],
}

impl Model for Tree {
    ghost Value = { Nodes };

    ghost view = { λ t. record { sums = t.sums; ends = t.ends } };

    ghost invariant = { λ t. Sound most_jobs t.sums t.ends };
}

impl Tree {
    // The tree of no jobs.
    pub fn new() -> Self
        ensures sums { result.sums ≡ replicate (2 * most_jobs) 0 }
        ensures ends { result.ends ≡ replicate (2 * most_jobs) empty }
    {
        Tree {
            sums: [0; NODES],
            ends: [EMPTY; NODES],
        }
    }

    // A job of earliest start e and duration p is put in at place x, and every node above its leaf is made what its children say.
    pub fn put(&mut self, x: usize, e: u32, p: u32)
        requires { (x < most_jobs) × (e ≤ most_time) × (p ≤ most_time) }
        ensures { Climbed most_jobs (set self.old.sums (most_jobs + x) p) (set self.old.ends (most_jobs + x) (pos (e + p))) self.new.sums self.new.ends }
    {
        let mut v = MOST + x;
        self.sums[v] = p;
        self.ends[v] = i64::from(e + p);
        while 1 < v {
            v /= 2;
            let l = 2 * v;
            let r = l + 1;
            let moved = self.ends[l] + i64::from(self.sums[r]);
            self.ends[v] = max(self.ends[r], moved);
            self.sums[v] = self.sums[l] + self.sums[r];
        }
    }

    // Whether node v's completion, with a tail after it, exceeds b.
    pub fn exceeds(&self, v: usize, tail: u32, b: u32) -> bool
        requires { (1 ≤ v) × (v < 2 * most_jobs) }
        ensures { result ≡ lt_z (pos b) (end_of self.now.ends v +ℤ pos tail) }
    {
        exceeds(self.ends[v], tail, b)
    }

    // The leaf at which the descent from the root ends.
    pub fn descend(&self, b: u32) -> usize
        ensures { result ≡ descent self.now.sums self.now.ends b depth 1 0 }
    {
        let mut v = 1;
        let mut tail = 0;
        while v < MOST {
            let r = 2 * v + 1;
            if self.exceeds(r, tail, b) {
                v = r;
            } else {
                tail += self.sums[r];
                v = 2 * v;
            }
        }
        v
    }
}
