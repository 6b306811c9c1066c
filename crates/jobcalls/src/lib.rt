// The calls over a job list: narrowing, the check of a log, the jobs that a clash log names, the overload check, and narrowing for the read head, made over
// the lists of a line, which stand packed in lent words. Both narrowings and the check change their lists there; the result is what a call says, and beside
// it the set that one gives.
#![tactic(auto)]

ghost use Rattle.std.specs.Prelude.{◌≡◌};
ghost use Rattle.answers.specs.Said.{Said};
ghost use Rattle.desk.specs.Lists.{win};
ghost use Rattle.desk.specs.Narrowing.{call};
ghost use Rattle.desk.specs.Conflicts.{blame, Blames};
ghost use Rattle.desk.specs.Overloads.{Overloads};
ghost use Rattle.sayings.specs.Sayings.{Tells};
ghost use Rattle.packed.specs.Packed.{list_of, put_at};
ghost use Rattle.jobcalls.specs.Sequenced.{Sequenced};

use requests::{JOBS, Task};
use sayings::{Saying, checking, marking, narrowing, overloading};

// What a call leaves of the windows goes back to where they stood.
fn put_windows(words: &mut [u32], est: &[u32], lct: &[u32])
    ensures { words.new ≡ put_at (put_at words.old 0 est.now) 1 lct.now }
{
    packed::put(words, 0, est);
    packed::put(words, 1, lct);
}

// narrow CAP est lct dur dem log
// check CAP COUNT est lct dur dem log
// (Each array is the room of a copy: desk calls cannot fail, so there is no heap. Narrowing asks for no count; docs/EXCEPTIONS.md names this one function
// for both, as the calls differ in one line.)
pub fn narrow_or_check(words: &mut [u32], task: Task, cap: u32, count: usize) -> Saying {
    let mut est = [0; JOBS];
    let mut lct = [0; JOBS];
    let mut dur = [0; JOBS];
    let mut dem = [0; JOBS];
    let (est, lct, dur, dem) = packed::copied_four(words, &mut est, &mut lct, &mut dur, &mut dem);
    let log = packed::list_mut(words, 4);
    let says = match task {
        Task::Narrow => narrowing(desk::narrow(est, lct, dur, dem, cap, log)),
        Task::Check => checking(desk::check_log(est, lct, dur, dem, cap, log, count)),
    };
    put_windows(words, est, lct);
    says
}

// What the call that names jobs says, and its member set.
#[derive(Drop)]
pub struct Marks {
    pub says: Saying,
    pub set: [u32; bits::WORDS],
}

// conflict CAP COUNT est lct dur dem log
pub fn conflict(words: &[u32], cap: u32, count: usize) -> Marks
    ensures { (a : Said) × Tells result.says a × Blames (call (win (list_of words.now 0) (list_of words.now 1)) (list_of words.now 2) (list_of words.now 3) cap (list_of words.now 4)) count (blame a result.set) }
{
    let est = packed::list(words, 0);
    let lct = packed::list(words, 1);
    let dur = packed::list(words, 2);
    let dem = packed::list(words, 3);
    let log = packed::list(words, 4);
    let given = desk::conflict(est, lct, dur, dem, cap, log, count);
    let says = marking(given.answer);
    let set = given.set;
    Marks { says, set }
}

// overload est lct dur
pub fn overload(words: &[u32]) -> Saying
    ensures { (a : Said) × Tells result a × Overloads (win (list_of words.now 0) (list_of words.now 1)) (list_of words.now 2) a }
{
    let est = packed::list(words, 0);
    let lct = packed::list(words, 1);
    let dur = packed::list(words, 2);
    overloading(desk::overload(est, lct, dur))
}

// head est lct dur
// (Arrays as above.)
pub fn sequence(words: &mut [u32]) -> Saying
    ensures { Sequenced words.old result words.new }
{
    let mut est = [0; JOBS];
    let mut lct = [0; JOBS];
    let est = packed::copied(words, 0, &mut est);
    let lct = packed::copied(words, 1, &mut lct);
    let answer = desk::sequence(est, lct, packed::list(words, 2));
    put_windows(words, est, lct);
    narrowing(answer)
}
