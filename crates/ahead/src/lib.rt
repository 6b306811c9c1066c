// The search of detectable precedences in code (document 02, Item 2): the new earliest start of a job, by one pass over the jobs by rising earliest start.
// The windows are told from both ends, so that side 1 is the same search on them told the other way round.
#![tactic(auto)]

ghost use Rattle.std.specs.Prelude.{◌≡◌, not, ◌+◌, ◌*◌, ◌-◌, ◌<◌, ◌≤◌, leb, ltb, eqb, length};
ghost use Rattle.lists.specs.Lists.{◌!◌};
ghost use Rattle.lists.specs.Tests.{both};
ghost use Rattle.lists.specs.Extremes.{found_or};
ghost use Rattle.lists.specs.Sweeps.{advanced};
ghost use Rattle.narrowing.specs.Windows.{early};
ghost use Rattle.joblist.specs.Limits.{most_time, most_jobs};
ghost use Rattle.heads.specs.Search.{early_bound, detect};
ghost use Rattle.mirrors.specs.Back.{told};
ghost use Rattle.ahead.specs.Ready.{Ready};

use screen::{MOST_JOBS, MOST_TIME};

// Whether job k, which lasts p and has its latest end counted back, comes before job i, whose e + p is `end`: i lasts.
fn comes_first(k: usize, i: usize, end: u32, back: u32, p: u32) -> bool
    requires { (end ≤ 2 * most_time) × (back ≤ most_time) × (p ≤ most_time) }
    ensures { result ≡ both (not (eqb k i)) (both (leb 1 p) (ltb (most_time - back) (end + p))) }
{
    k != i && 1 <= p && MOST_TIME - back < end + p
}

// What is done after one more member: it starts when all before it are done, or at its e if that is later. It is no `max`, since with one each step of the pass
// waits for the one before it: the read head's narrowing was measured slower so.
fn advance(done: u32, e: u32, p: u32) -> u32
    requires { (done ≤ most_time * (most_jobs + 1)) × (e ≤ most_time) × (p ≤ most_time) }
    ensures { result ≡ advanced done e p }
{
    if done < e { e + p } else { done + p }
}

// The lists as they are lent for one search: earliest starts, latest ends counted back, durations, and the jobs by rising earliest start. For the other side they
// are lent anew, told the other way round.
#[derive(Clone, Copy)]
pub struct Lent<'a> {
    pub starts: &'a [u32],
    pub ends: &'a [u32],
    pub dur: &'a [u32],
    pub order: &'a [usize; MOST_JOBS],
    ghost ready: { Ready (length starts.now) starts.now ends.now dur.now order.now },
}

impl Lent<'_> {
    // The greatest value, over the non-empty sets of jobs that come before the job, of least e plus total p; 0 where none comes first, and no
    // Option: it equals `early_bound` (heads: Search), which is said so. One pass, with one comparison a job.
    fn bound_of(self, job: usize) -> u32
        requires { (job < length self.starts.now) × (1 ≤ self.dur.now ! job) }
        ensures { result ≡ early_bound (length self.entry.starts.now) self.entry.dur.now (told self.entry.starts.now self.entry.ends.now) job }
    {
        // copied out: the borrow checker covers no slice of an array behind a field
        let order = self.order;
        let end = self.starts[job] + self.dur[job];
        let mut done = 0;
        for &k in &order[..self.starts.len()] {
            if comes_first(k, job, end, self.ends[k], self.dur[k]) {
                done = advance(done, self.starts[k], self.dur[k]);
            }
        }
        done
    }

    // The earliest start of a job after the rule: the greatest that it gives, or the present one where it gives none. It is no Option: a bound that is no later
    // gives none, so that the later of the two is the whole answer, as `found_or` says it.
    pub fn start(self, job: usize) -> u32
        requires { job < length self.starts.now }
        ensures { result ≡ found_or (self.entry.starts.now ! job) (detect (length self.entry.starts.now) self.entry.dur.now (told self.entry.starts.now self.entry.ends.now) job early) }
    {
        if self.dur[job] == 0 {
            self.starts[job]
        } else {
            self.starts[job].max(self.bound_of(job))
        }
    }
}
