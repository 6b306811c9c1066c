// Which calls with a log are turned away before the work (document 01, 'Answer table'; document 02, Item 10): tests 1 to 3 of the lists, then 7 of the log.
#![tactic(auto)]

ghost use Rattle.std.specs.Prelude.{◌≡◌};
ghost use Rattle.narrowing.specs.Windows.{win};
ghost use Rattle.answers.specs.Said.{refusal_number};
ghost use Rattle.timetable.specs.Table.{call, refusal_of};

use answers::Refusal;

// The first test that fails.
pub fn refusal(
    est: &[u32],
    lct: &[u32],
    dur: &[u32],
    dem: &[u32],
    cap: u32,
    log: &[u32],
) -> Result<(), Refusal>
    ensures { refusal_number result ≡ refusal_of (call (win est.now lct.now) dur.now dem.now cap log.now) }
{
    screen::refusal(est, lct, dur, dem, cap)?;
    if logs::ragged(log) {
        Err(Refusal::Ragged)
    } else {
        Ok(())
    }
}
