// A line of input of a given form, read whole behind its first word: its numbers, its lists and its bytes.
#![tactic(auto)]

ghost use Rattle.std.specs.Prelude.{true, ◌≡◌, ◌≤◌, IfSome, IsSome};
ghost use Rattle.io.specs.Counts.{IsPrefixLen};
ghost use Rattle.intake.specs.Line.{line_end};

use intake::{LONG, Reader, SHORT};
use std::io::Read;

// So many lists, each with at most so many numbers.
#[derive(Clone, Copy)]
pub struct Lists {
    pub count: usize,
    pub most: u32,
}

// What stands in a line, in this order: none, one or two numbers below 2^32, perhaps one below 2^64, lists, more lists, and
// perhaps a list of bytes. (How many, and whether: `requests: Names.line_form`, `form_of` say these fields, and are the contract of `Call::form`.)
#[derive(Clone, Copy)]
pub struct Form {
    pub shorts: u32,
    pub long: bool,
    pub lists: Lists,
    pub more: Lists,
    pub bytes: bool,
}

// A line that was read: its numbers, each 0 where there is none, and how many bytes it has. (No Option: a call has them by its form, which says which
// there are, and takes them as numbers, as the contracts of `jobcalls` and `projectcalls` say.)
#[derive(Clone, Copy)]
pub struct Line {
    pub first: u32,
    pub second: u32,
    pub long: u64,
    pub bytes: usize,
}

// The number behind a space, at most `most`, where one is asked for, or 0.
fn number_if(reader: &mut Reader<impl Read>, asked: bool, most: u64) -> Option<u64>
    ensures { IfSome result (λ value. value ≤ most) }
{
    if asked { reader.number(most) } else { Some(0) }
}

// Reads the rest of a line: its lists into the lent words, each behind its length and one behind the other, its bytes into the lent ones.
// None where the line has another form; no byte more of it is read then.
pub fn read(
    reader: &mut Reader<impl Read>,
    form: Form,
    words: &mut [u32],
    text: &mut [u8],
) -> Option<Line>
    ensures whole { IsSome result → line_end reader.new.cursor.now ≡ true }
    ensures bytes { IfSome result (λ line. IsPrefixLen line.bytes text.new) }
{
    let first = number_if(reader, 0 < form.shorts, SHORT)?;
    let second = number_if(reader, 1 < form.shorts, SHORT)?;
    let long = number_if(reader, form.long, LONG)?;
    let few = fields::lists(reader, words, form.lists.count, form.lists.most)?;
    fields::lists(reader, &mut words[few..], form.more.count, form.more.most)?;
    let bytes = if form.bytes {
        fields::bytes(reader, text)?
    } else {
        0
    };
    if !reader.cursor.is_line_end() {
        return None;
    }
    Some(Line {
        first: first as u32,
        second: second as u32,
        long,
        bytes,
    })
}
