// Tests 1 to 3 of job lists in code, in the order of their numbers (document 01, 'Answer table'), and the limits (document 01, 'Job lists').
#![tactic(auto)]

ghost use Rattle.std.specs.Prelude.{◌≡◌, [], eqb, leb, length};
ghost use Rattle.narrowing.specs.Windows.{win};
ghost use Rattle.answers.specs.Said.{refusal_number};
ghost use Rattle.answers.specs.declared.reasons.Refusal.TheVariants.{Lengths, Jobs, Limit};
ghost use Rattle.joblist.specs.Limits.{most_jobs, most_demand, four_lists, three_lists, two_lists, supply};
ghost use Rattle.joblist.specs.GoodList.{at_most, refusal};
ghost use Rattle.lists.specs.Tests.{both};
ghost use Rattle.screen.specs.Passing.{passing};

use answers::Refusal;

// The most jobs that a list may have.
pub const MOST_JOBS: usize = 256;

// The greatest time and the longest duration.
pub const MOST_TIME: u32 = 1_000_000;

// The greatest demand and the greatest capacity.
pub const MOST_DEMAND: u32 = 10_000;

// The most resources that a project may name.
pub const MOST_RESOURCES: u32 = 8;

// Test 1 of a list: it has n numbers.
fn sized(list: &[u32], n: usize) -> Result<(), Refusal>
    ensures { result ≡ passing (eqb (length list.now) n) Lengths }
{
    if list.len() == n {
        Ok(())
    } else {
        Err(Refusal::Lengths)
    }
}

// Test 2: there are no more than the most jobs.
fn few(n: usize) -> Result<(), Refusal>
    ensures { result ≡ passing (leb n most_jobs) Jobs }
{
    if n <= MOST_JOBS {
        Ok(())
    } else {
        Err(Refusal::Jobs)
    }
}

// Test 3 of a list: none of its numbers is above the limit.
fn within(list: &[u32], most: u32) -> Result<(), Refusal>
    ensures { result ≡ passing (at_most most list.now) Limit }
{
    if list.iter().all(|&x| x <= most) {
        Ok(())
    } else {
        Err(Refusal::Limit)
    }
}

// Test 3 of the demands and the capacity.
fn supplied(dem: &[u32], cap: u32) -> Result<(), Refusal>
    ensures { result ≡ passing (both (at_most most_demand dem.now) (leb cap most_demand)) Limit }
{
    within(dem, MOST_DEMAND)?;
    within(&[cap], MOST_DEMAND)
}

// The first test that a list of windows and durations fails.
pub fn refusal_of_three(est: &[u32], lct: &[u32], dur: &[u32]) -> Result<(), Refusal>
    ensures { refusal_number result ≡ refusal (length est.now) (three_lists (win est.now lct.now) dur.now) [] }
{
    sized(lct, est.len())?;
    sized(dur, est.len())?;
    few(est.len())?;
    within(est, MOST_TIME)?;
    within(lct, MOST_TIME)?;
    within(dur, MOST_TIME)
}

// The same of a list with demands and a capacity.
pub fn refusal(est: &[u32], lct: &[u32], dur: &[u32], dem: &[u32], cap: u32) -> Result<(), Refusal>
    ensures { refusal_number result ≡ refusal (length est.now) (four_lists (win est.now lct.now) dur.now dem.now) (supply cap) }
{
    sized(dem, est.len())?;
    refusal_of_three(est, lct, dur)?;
    supplied(dem, cap)
}

// The same of a list of durations and demands alone, with a capacity.
pub fn refusal_of_two(dur: &[u32], dem: &[u32], cap: u32) -> Result<(), Refusal>
    ensures { refusal_number result ≡ refusal (length dur.now) (two_lists dur.now dem.now) (supply cap) }
{
    sized(dem, dur.len())?;
    few(dur.len())?;
    within(dur, MOST_TIME)?;
    supplied(dem, cap)
}
