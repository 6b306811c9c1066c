// Time-tabling in code (01, 'The two time-tabling rules'): the load of the other jobs at a time.
#![tactic(auto)]

ghost use Rattle.std.specs.Prelude.{◌≡◌, ◌≤◌};
ghost use Rattle.joblist.specs.Limits.{most_time};
ghost use Rattle.timetable.specs.Table.{Good};
ghost use Rattle.crowding.specs.Asked.{asked, load_of};

// The demands of the other jobs whose sure part holds t. The capacity plays no part. (By index, since a job is the same place of four lists.)
pub fn load_at(est: &[u32], lct: &[u32], dur: &[u32], dem: &[u32], job: usize, t: u32) -> u32
    requires { Good (asked est.now lct.now dur.now dem.now 0) × (t ≤ most_time) }
    ensures { result ≡ load_of (asked est.now lct.now dur.now dem.now 0) job t }
{
    let mut sum: u32 = 0;
    for k in 0..est.len() {
        if k != job && windows::sure(est[k], lct[k], dur[k], t) {
            sum += dem[k];
        }
    }
    sum
}
