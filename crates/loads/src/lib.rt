// The load of all jobs kept as a profile (02, Item 5): built from the windows, and raised where a move has made a sure part longer. Its points are 0
// and where a sure part begins or ends, or has done so before a move.
#![tactic(auto)]

ghost use Rattle.std.specs.Prelude.{◌≡◌, ◌<◌, ◌≤◌, length};
ghost use Rattle.narrowing.specs.Windows.{win, moved, Respects};
ghost use Rattle.joblist.specs.Limits.{most_time};
ghost use Rattle.crowding.specs.Asked.{asked};
ghost use Rattle.windows.specs.Sides.{side_is};
ghost use Rattle.timetable.specs.Table.{Workable};
ghost use Rattle.loads.specs.Loads.{Spacious, Loaded, LoadedAs};

use profile::Outline;
use windows::Side;

// Job by job, each one's sure part raised by its demand; a job is the same place of four lists. The lists of the profile are lent to be written here, and
// `searches::Load` has them with their outline where they are read.
pub fn build(
    est: &[u32],
    lct: &[u32],
    dur: &[u32],
    dem: &[u32],
    ts: &mut [u32],
    ld: &mut [u32],
) -> Outline
    requires { Workable (asked est.now lct.now dur.now dem.now 0) × Spacious ts.old × (length ld.old ≡ length ts.old) }
    ensures { LoadedAs ts.old (win est.now lct.now) dur.now dem.now ts.new ld.new result }
{
    let mut kept = profile::start(ts, ld);
    for k in 0..est.len() {
        let p = dur[k];
        let r = dem[k];
        if 0 < r {
            kept = profile::grow(ts, ld, kept, lct[k] - p, est[k] + p, r);
        }
    }
    kept
}

// After a move of the job's side from `old`: what its sure part has gained at that end is raised by its demand. Where the lists have no room for two points
// more, the load is built anew.
pub fn follow(
    est: &[u32],
    lct: &[u32],
    dur: &[u32],
    dem: &[u32],
    job: usize,
    side: Side,
    old: u32,
    ts: &mut [u32],
    ld: &mut [u32],
    kept: Outline,
) -> Outline
    requires { Workable (asked est.now lct.now dur.now dem.now 0) × (job < length dur.now) × Respects (win est.now lct.now) job (side_is side) old × (old ≤ most_time) × Loaded (moved (win est.now lct.now) job (side_is side) old) dur.now dem.now ts.old ld.old kept }
    ensures { LoadedAs ts.old (win est.now lct.now) dur.now dem.now ts.new ld.new result }
{
    if ts.len() - 2 <= kept.m {
        return build(est, lct, dur, dem, ts, ld);
    }
    let p = dur[job];
    let r = dem[job];
    let e = est[job];
    let l = lct[job];
    match side {
        Side::Start => profile::grow(ts, ld, kept, (l - p).max(old + p), e + p, r),
        Side::End => profile::grow(ts, ld, kept, l - p, (old - p).min(e + p), r),
    }
}
