// The replay of a log (document 01, 'Answer table'; document 02, Item 3): its records in turn, each judged on the windows reached.
#![tactic(auto)]

ghost use Rattle.std.specs.Prelude.{◌≡◌, [], ◌≤◌, length};
ghost use Rattle.narrowing.specs.Windows.{win};
ghost use Rattle.journal.specs.Journal.{room_of, records};
ghost use Rattle.timetable.specs.Table.{call, Good};
ghost use Rattle.checks.specs.Replay.{replay};
ghost use Rattle.exam.specs.Lent.{jobs_in};
ghost use Rattle.replay.specs.Ended.{verdict};

use answers::Code;
use windows::Side;

// The first bad record of a log: its place and its code.
#[derive(Clone, Copy, Debug, PartialEq, Eq)]
pub struct Bad {
    pub place: usize,
    pub code: Code,
}

// Takes the records in turn, each on the windows that those before it have left. Where all are good, it returns the job whose window the last one closed, if
// it closed one.
pub fn replayed(
    est: &mut [u32],
    lct: &mut [u32],
    dur: &[u32],
    dem: &[u32],
    cap: u32,
    log: &[u32],
    count: usize,
) -> Result<Option<usize>, Bad>
    requires { Good (call (win est.old lct.old) dur.now dem.now cap []) × (count ≤ room_of log.now) }
    ensures { verdict result (win est.new lct.new) ≡ replay (jobs_in (length dur.now) dur.now dem.now cap) (win est.old lct.old) 0 (records log.now 0 count) }
{
    for i in 0..count {
        // a record that the log has is whole, so that it is an array of its words
        let words = logs::show_record(log, i).as_array().unwrap();
        judge::code_of(est, lct, dur, dem, cap, words).map_err(|code| Bad { place: i, code })?;
        let job = words[logs::JOB_WORD] as usize;
        let side = Side::from(words[logs::SIDE_WORD]);
        windows::shift(est, lct, job, side, words[logs::TIME_WORD]);
        if windows::closed(est, lct, dur, job) {
            let next = i + 1;
            return if next < count {
                Err(Bad {
                    place: next,
                    code: Code::Closed,
                })
            } else {
                Ok(Some(job))
            };
        }
    }
    Ok(None)
}
