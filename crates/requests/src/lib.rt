// A call as a line of input asks it (docs/ANSWERS.md has the forms): its name, its numbers, its lists and its bytes.
#![tactic(auto)]

mod names; // names.rt: the calls' names, and the form of each one's line

ghost use Rattle.std.specs.Prelude.{true, ◌≡◌, IfSome, IsSome};
ghost use Rattle.io.specs.Counts.{IsPrefixLen};
ghost use Rattle.intake.specs.Line.{line_end};

use forms::Line;
use intake::Reader;
pub use names::{Call, JOBS, Layout, PAIRS, TEXT, Task, WORDS};
use std::io::Read;

// Longer than any call's name, so that no longer word is taken for one; the word stands in an array of so many bytes, since there is no heap.
const LETTERS: usize = 16;

// The call that a line asks for, and the line behind its name.
#[derive(Clone, Copy)]
pub struct Request {
    pub call: Call,
    pub line: Line,
}

// Takes the line that the reader is at the start of, up to its end: its lists into the lent words, each behind its length and one behind the
// other, its bytes into the lent ones. None where no call has a line of that name and form; it is taken up to where that shows.
pub fn take(reader: &mut Reader<impl Read>, words: &mut [u32], text: &mut [u8]) -> Option<Request>
    ensures whole { IsSome result → line_end reader.new.cursor.now ≡ true }
    ensures bytes { IfSome result (λ request. IsPrefixLen request.line.bytes text.new) }
{
    let mut letters = [0u8; LETTERS];
    let call = Call::named(reader.word(&mut letters))?;
    let line = forms::read(reader, call.form(), words, text)?;
    Some(Request { call, line })
}
