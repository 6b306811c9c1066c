// The calls over a project list: read in the Patterson layout (document 02, Item 1) or the PSPLIB layout (Item 13), and written in the
// Patterson layout (Item 13). They are made over the lists of a line, which stand packed in lent words. Each call changes its lists there; the
// result is what it says.
#![tactic(auto)]

ghost use Rattle.std.specs.Prelude.{◌≡◌};
ghost use Rattle.answers.specs.Said.{Said};
ghost use Rattle.desk.specs.Writing.{Writes};
ghost use Rattle.sayings.specs.Sayings.{Tells};
ghost use Rattle.packed.specs.Packed.{list_of};

use requests::{JOBS, Layout, PAIRS};
use sayings::{Saying, reading, writing};

// What a reader is asked: the layout and the two numbers.
#[derive(Clone, Copy)]
pub struct Reading {
    pub layout: Layout,
    pub resource: u32,
    pub horizon: u32,
}

// patterson RESOURCE HORIZON est lct dur dem jobs successors text
// psplib RESOURCE HORIZON est lct dur dem jobs successors text
// (Each array is the room of a copy: desk calls cannot fail, so there is no heap. The layout switches between two calls of the desk;
// given the call as a closure, each caller would write out its nine arguments, and docs/EXCEPTIONS.md names this one function for both.)
pub fn read(words: &mut [u32], task: Reading, text: &[u8]) -> Saying {
    let mut est = [0; JOBS];
    let mut lct = [0; JOBS];
    let mut dur = [0; JOBS];
    let mut dem = [0; JOBS];
    let mut jobs = [0; PAIRS];
    let (est, lct, dur, dem) = packed::copied_four(words, &mut est, &mut lct, &mut dur, &mut dem);
    let jobs = packed::copied(words, 4, &mut jobs);
    let successors = packed::list_mut(words, 5);
    let r = task.resource;
    let h = task.horizon;
    let answer = match task.layout {
        Layout::Patterson => desk::read_patterson(text, r, h, est, lct, dur, dem, jobs, successors),
        Layout::Psplib => desk::read_psplib(text, r, h, est, lct, dur, dem, jobs, successors),
    };
    packed::put(words, 0, est);
    packed::put(words, 1, lct);
    packed::put(words, 2, dur);
    packed::put(words, 3, dem);
    packed::put(words, 4, jobs);
    reading(answer)
}

// write CAP dur dem jobs successors buffer
pub fn write(words: &[u32], cap: u32, buffer: &mut [u8]) -> Saying
    ensures { (a : Said) × Tells result a × Writes
        (record { cap = cap; dur = list_of words.now 0; dem = list_of words.now 1; jobs = list_of words.now 2; successors = list_of words.now 3; buffer = buffer.old })
        (record { says = a; buffer = buffer.new }) }
{
    let dur = packed::list(words, 0);
    let dem = packed::list(words, 1);
    let jobs = packed::list(words, 2);
    let successors = packed::list(words, 3);
    writing(desk::write_patterson(cap, dur, dem, jobs, successors, buffer))
}
