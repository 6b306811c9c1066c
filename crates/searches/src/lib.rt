// The next time at which a rule moves a job's side, found in the kept load of all jobs (02, Item 5).
#![tactic(auto)]

ghost use Rattle.std.specs.Prelude.{◌≡◌, ◌<◌, ◌≤◌, length};
ghost use Rattle.narrowing.specs.Windows.{win};
ghost use Rattle.profile.specs.Steps.{behind_all};
ghost use Rattle.timetable.specs.Table.{Workable};
ghost use Rattle.loads.specs.Loads.{Loaded};
ghost use Rattle.windows.specs.Sides.{side_is};
ghost use Rattle.windows.specs.Found.{as_option};
ghost use Rattle.searches.specs.Found.{next_time};
ghost use Rattle.searches.specs.Listed.{asked_of};
ghost use Rattle.searches.specs.Busy.{LastBusy, FirstBusy};

mod list; // list.rt: a job list, as it is lent
mod load; // load.rt: the kept load, as it is lent

pub use list::JobList;
pub use load::Load;
use windows::Side;

impl Load<'_> {
    // Side 0: one more than the last time from e up to f that is crowded for a job of demand r, and e where there is none. Its sure part is from s up to f;
    // there the load has its demand in it already. A bound stands for none and no Option, since LastBusy and FirstBusy answer so.
    fn early(self, cap: u32, r: u32, e: u32, s: u32, f: u32) -> u32
        requires { (e ≤ s) × (e ≤ f) × (f < behind_all) }
        ensures { LastBusy self.entry cap r s f e f result }
    {
        if cap < r {
            return f;
        }
        let rest = cap - r;
        let mid = s.min(f);
        let x = peaks::last_over(self.ts, self.ld, self.kept, mid, f, cap);
        if mid < x {
            x
        } else {
            peaks::last_over(self.ts, self.ld, self.kept, e, mid, rest)
        }
    }

    // Side 1: the first time from s up to l that is crowded for a job of demand r, and l where there is none. Its sure part is from s up to f. It mirrors
    // `early` in each step (greatest for least, behind for before), so that one function for both would ask the side at each.
    fn late(self, cap: u32, r: u32, s: u32, f: u32, l: u32) -> u32
        requires { (s ≤ l) × (f ≤ l) × (l < behind_all) }
        ensures { FirstBusy self.entry cap r s f s l result }
    {
        if cap < r {
            return s;
        }
        let rest = cap - r;
        let mid = s.max(f);
        let x = peaks::first_over(self.ts, self.ld, self.kept, s, mid, cap);
        if x < mid {
            x
        } else {
            peaks::first_over(self.ts, self.ld, self.kept, mid, l, rest)
        }
    }
}

// The time at which a rule moves the job's side next: on side 0 the greatest crowded time of e .. e + p - 1, on side 1 the least of l - p .. l - 1.
pub fn next_time(list: JobList<'_>, job: usize, side: Side, load: Load<'_>) -> Option<u32>
    requires { Workable (asked_of list) × (job < length list.dur.now) × Loaded (win list.est.now list.lct.now) list.dur.now list.dem.now load.ts.now load.ld.now load.kept }
    ensures { result ≡ as_option (next_time (asked_of list.entry) job (side_is side)) }
{
    let r = list.dem[job];
    let p = list.dur[job];
    // for such a job no time is crowded
    if r == 0 || p == 0 {
        return None;
    }
    let e = list.est[job];
    let l = list.lct[job];
    match side {
        Side::Start => {
            let x = load.early(list.cap, r, e, l - p, e + p);
            if e < x { Some(x - 1) } else { None }
        }
        Side::End => {
            let y = load.late(list.cap, r, l - p, e + p, l);
            if y < l { Some(y) } else { None }
        }
    }
}
