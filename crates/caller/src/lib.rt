// A user of the desk: it names `desk answers` and nothing else, and is proved like the rest, from the contracts of the desk's calls.
#![tactic(auto)]

ghost use Rattle.std.specs.Prelude.{◌≡◌, true, ◌↔◌};
ghost use Rattle.answers.specs.Said.{Word, says, says_check, says_read, says_conflict};
ghost use Rattle.desk.specs.Lists.{win};
ghost use Rattle.desk.specs.Narrowing.{call};
ghost use Rattle.desk.specs.Reading.{patterson};
ghost use Rattle.caller.specs.Told.{ToldSettles, ToldHolds, ToldHopeless, ToldSequences, ToldReads};

use answers::{Answer, CheckAnswer, ProjectRead, Refusal};

fn settled(answer: Answer) -> bool
    ensures { (result ≡ true) ↔ ((says answer).word ≡ Word.settled) }
{
    matches!(answer, Answer::Settled(_))
}

// Whether the windows of a job list could be narrowed, with room in the log for the reasons.
pub fn settles(
    est: &mut [u32],
    lct: &mut [u32],
    dur: &[u32],
    dem: &[u32],
    cap: u32,
    log: &mut [u32],
) -> bool
    ensures { ToldSettles (call (win est.old lct.old) dur.now dem.now cap log.old) (win est.new lct.new) log.new result }
{
    settled(desk::narrow(est, lct, dur, dem, cap, log))
}

fn held(answer: CheckAnswer) -> bool
    ensures { (result ≡ true) ↔ ((says_check answer).word ≡ Word.holds) }
{
    matches!(answer, CheckAnswer::Holds(_))
}

// Whether all claimed records of a log are good and close no window; the windows are then those that they reach.
pub fn holds(
    est: &mut [u32],
    lct: &mut [u32],
    dur: &[u32],
    dem: &[u32],
    cap: u32,
    log: &[u32],
    count: usize,
) -> bool
    ensures { ToldHolds (call (win est.old lct.old) dur.now dem.now cap log.now) count (win est.new lct.new) result }
{
    held(desk::check_log(est, lct, dur, dem, cap, log, count))
}

fn marked(answer: Result<u32, Refusal>) -> bool
    ensures { (result ≡ true) ↔ ((says_conflict answer).word ≡ Word.marked) }
{
    answer.is_ok()
}

// Whether a log shows some jobs that cannot be done together: then the whole list has no schedule either.
pub fn hopeless(
    est: &[u32],
    lct: &[u32],
    dur: &[u32],
    dem: &[u32],
    cap: u32,
    log: &[u32],
    count: usize,
) -> bool
    ensures { ToldHopeless (call (win est.now lct.now) dur.now dem.now cap log.now) count result }
{
    let given = desk::conflict(est, lct, dur, dem, cap, log, count);
    let answer = given.answer;
    marked(answer)
}

// Whether the windows of jobs that are done one at a time could be narrowed.
pub fn sequences(est: &mut [u32], lct: &mut [u32], dur: &[u32]) -> bool
    ensures { ToldSequences (win est.old lct.old) dur.now (win est.new lct.new) result }
{
    settled(desk::sequence(est, lct, dur))
}

fn read(answer: Result<ProjectRead, Refusal>) -> bool
    ensures { (result ≡ true) ↔ ((says_read answer).word ≡ Word.read) }
{
    answer.is_ok()
}

// Whether a text of the Patterson layout could be read, for its first resource; the lists are then filled.
pub fn reads(
    text: &[u8],
    horizon: u32,
    est: &mut [u32],
    lct: &mut [u32],
    dur: &mut [u32],
    dem: &mut [u32],
    jobs: &mut [u32],
    successors: &mut [u32],
) -> bool
    ensures { ToldReads
        (record { text = patterson text.now; resource = 0; horizon = horizon; lent = record { est = est.old; lct = lct.old; dur = dur.old; dem = dem.old; jobs = jobs.old; successors = successors.old } })
        (record { est = est.new; lct = lct.new; dur = dur.new; dem = dem.new; jobs = jobs.new; successors = successors.new })
        result }
{
    read(desk::read_patterson(text, 0, horizon, est, lct, dur, dem, jobs, successors))
}
