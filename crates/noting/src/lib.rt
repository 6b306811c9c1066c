// The record of a move (document 01, 'Log records'; document 02, Item 7): the members that the writer names, and the words in the log.
#![tactic(auto)]

ghost use Rattle.std.specs.Prelude.{◌≡◌, ◌≤◌, ◌<◌, length};
ghost use Rattle.joblist.specs.Limits.{most_time};
ghost use Rattle.journal.specs.Journal.{rewritten};
ghost use Rattle.timetable.specs.Search.{member};
ghost use Rattle.timetable.specs.Table.{jobs_of};
ghost use Rattle.windows.specs.Sides.{side_is};
ghost use Rattle.searches.specs.Listed.{asked_of};
ghost use Rattle.noting.specs.Record.{members_of, record_of};

use searches::JobList;
use windows::Side;

// Whether job k is one of 01's members of a record of job j at time t: another job with a demand whose sure part holds t.
fn is_member(list: JobList<'_>, k: usize, j: usize, t: u32) -> bool
    requires { (k < length list.est.now) × (t ≤ most_time) }
    ensures { result ≡ member (jobs_of (asked_of list.entry)) (asked_of list.entry).win j t k }
{
    k != j && list.dem[k] != 0 && windows::sure(list.est[k], list.lct[k], list.dur[k], t)
}

// The set of the jobs that a record of the job at time t names: 01's members, gone through by rising number, less each one without whom the demands still
// named exceed the capacity. The loop counts k, since k is a member's number, put in the set, and tells `is_member` its job in four lists.
fn gather(list: JobList<'_>, job: usize, t: u32) -> [u32; bits::WORDS]
    requires { (job < length list.est.now) × (t ≤ most_time) }
    ensures { result ≡ members_of (asked_of list.entry) job t }
{
    let mut set = bits::empty();
    let mut left = crowding::load_at(list.est, list.lct, list.dur, list.dem, job, t)
        + list.dem[job];
    for k in 0..list.est.len() {
        if is_member(list, k, job, t) {
            let rest = left - list.dem[k];
            if list.cap < rest {
                left = rest;
            } else {
                bits::put(&mut set, k);
            }
        }
    }
    set
}

// Writes the record of the job's move at time t, as record k of the log; nothing where the log ends before it.
pub fn note(list: JobList<'_>, job: usize, side: Side, t: u32, log: &mut [u32], k: usize)
    requires { (job < length list.est.now) × (t ≤ most_time) }
    ensures { log.new ≡ rewritten log.old k (record_of (asked_of list.entry) job (side_is side) t) }
{
    let set = gather(list, job, t);
    logs::write(log, k, job as u32, u32::from(side), t, set);
}
