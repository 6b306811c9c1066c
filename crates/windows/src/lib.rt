// Windows in code: their two sides, tested against the job's length (document 02, Item 3), moved by a rule (document 01, 'The two time-tabling rules'), and copied. The search and
// the checker both stand on it.
#![tactic(auto)]

ghost use Rattle.std.specs.Prelude.{◌≡◌, ◌+◌, ◌≤◌, ◌<◌, ◌++◌, leb, ltb, pos, ◌+ℤ◌, ◌-ℤ◌, length, take, drop};
ghost use Rattle.lists.specs.Tests.{both};
ghost use Rattle.narrowing.specs.Windows.{win, closes, lowest_too_short, moved};
ghost use Rattle.joblist.specs.Limits.{most_jobs, most_time};
ghost use Rattle.timetable.specs.Time.{bound};
ghost use Rattle.windows.specs.Bounds.{bound_at};
ghost use Rattle.windows.specs.Sides.{side_is};
ghost use Rattle.windows.specs.Found.{as_option};

// The two sides of a job: its earliest start, side 0, and its latest end, side 1.
#[derive(Clone, Copy, Debug, PartialEq, Eq)]
pub enum Side {
    Start,
    End,
}

// The side of the paper's number; each number but 0 says the end.
impl From<u32> for Side {
    ghost use Rattle.std.specs.Prelude.{◌≡◌};
    ghost use Rattle.narrowing.specs.Windows.{side_of};
    ghost use Rattle.windows.specs.Sides.{side_is};

    ghost from_gives = { λ k side. side_is side ≡ side_of k };

    fn from(number: u32) -> Side {
        if number == 0 { Side::Start } else { Side::End }
    }
}

// And the number of a side.
impl From<Side> for u32 {
    ghost use Rattle.std.specs.Prelude.{◌≡◌};
    ghost use Rattle.narrowing.specs.Windows.{number};
    ghost use Rattle.windows.specs.Sides.{side_is};

    ghost from_gives = { λ side k. k ≡ number (side_is side) };

    fn from(side: Side) -> u32 {
        match side {
            Side::Start => 0,
            Side::End => 1,
        }
    }
}

// Whether the job's window is too short for the job. It makes no sum, so no number is too large for it.
pub fn closed(est: &[u32], lct: &[u32], dur: &[u32], job: usize) -> bool
    requires { (job < length est.now) × (job < length lct.now) × (job < length dur.now) }
    ensures { result ≡ closes dur.now (win est.now lct.now) job }
{
    let e = est[job];
    let l = lct[job];
    l < e || l - e < dur[job]
}

// The lowest job whose window is too short for it, if there is one.
pub fn lowest_too_short(est: &[u32], lct: &[u32], dur: &[u32]) -> Option<usize>
    requires { (length lct.now ≡ length est.now) × (length dur.now ≡ length est.now) }
    ensures { result ≡ as_option (lowest_too_short (length est.now) dur.now (win est.now lct.now)) }
{
    (0..est.len()).find(|&i| closed(est, lct, dur, i))
}

// Copies `from` over the front of `to`, as far as both go: `copy_from_slice` asks that both are of one length.
pub fn copy(from: &[u32], to: &mut [u32])
    ensures { to.new ≡ take (length to.old) from.now ++ drop (length from.now) to.old }
{
    let n = from.len().min(to.len());
    to[..n].copy_from_slice(&from[..n]);
}

// A copy of a list in a local array.
pub fn save(from: &[u32], to: &mut [u32; screen::MOST_JOBS])
    requires { length from.now ≤ most_jobs }
    ensures { to.new ≡ from.now ++ drop (length from.now) to.old }
{
    to[..from.len()].copy_from_slice(from);
}

// A list from the front of such an array.
pub fn restore(from: &[u32; screen::MOST_JOBS], to: &mut [u32])
    requires { length to.old ≤ most_jobs }
    ensures { to.new ≡ take (length to.old) from.now }
{
    to.copy_from_slice(&from[..to.len()]);
}

// The move of a rule at a time: the earliest start becomes the time after it, or the latest end becomes the time. It returns the bound
// that was there.
pub fn shift(est: &mut [u32], lct: &mut [u32], job: usize, side: Side, time: u32) -> u32
    requires { (job < length est.old) × (job < length lct.old) × (time ≤ most_time) }
    ensures { (win est.new lct.new ≡ moved (win est.old lct.old) job (side_is side) (bound (side_is side) time)) × (result ≡ bound_at (win est.old lct.old) job (side_is side)) }
{
    match side {
        Side::Start => std::mem::replace(&mut est[job], time + 1),
        Side::End => std::mem::replace(&mut lct[job], time),
    }
}

// The lower limit t - p + 1 of a start. It may lie below zero; it is signed, and then no restriction.
fn low(t: u32, p: u32) -> i32
    requires { (t ≤ most_time) × (p ≤ most_time) }
    ensures { result ≡ (pos t -ℤ pos p) +ℤ pos 1 }
{
    (t as i32) - (p as i32) + 1
}

// Whether an earliest start e is no earlier than t - p + 1.
pub fn no_earlier(e: u32, t: u32, p: u32) -> bool
    requires { (e ≤ most_time) × (t ≤ most_time) × (p ≤ most_time) }
    ensures { result ≡ ltb t (e + p) }
{
    low(t, p) <= (e as i32)
}

// Whether a latest start l - p is no later than t.
pub fn no_later(l: u32, t: u32, p: u32) -> bool
    requires { (t ≤ most_time) × (p ≤ most_time) }
    ensures { result ≡ leb l (t + p) }
{
    l <= t + p
}

// Whether a sure part holds t: the job, with the window from e to l, starts no later than t and no earlier than t - p + 1.
pub fn sure(e: u32, l: u32, p: u32, t: u32) -> bool
    requires { (e ≤ most_time) × (p ≤ most_time) × (t ≤ most_time) }
    ensures { result ≡ both (leb l (t + p)) (ltb t (e + p)) }
{
    no_later(l, t, p) && no_earlier(e, t, p)
}
