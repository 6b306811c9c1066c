// What the programs print of a call's answer: the answer word, then its numbers (`answers: Said`). An answer is first made a value, whichever call gave it,
// and printed by one function.
#![tactic(auto)]

ghost use Rattle.std.specs.Prelude.{◌≡◌};
ghost use Rattle.answers.specs.Said.{number_of, says, says_check, says_overload, says_read, says_write, says_conflict};
ghost use Rattle.sayings.specs.Sayings.{Tells};
ghost use Rattle.sayings.specs.declared.Saying.{Saying};

use answers::{Answer, CheckAnswer, Overload, ProjectRead, Refusal};
use std::fmt;

// The answer words of documents 01 and 02 with their numbers, and two of the programs' own: that a record is shown, and that a line cannot be read. It is
// what is printed, so `Refused`, `Rejected` and `None` are words beside the others; a call answers with a Result or with one of the forms that 01 binds.
#[derive(Clone, Copy)]
pub enum Saying {
    Settled(usize),
    Clash(usize, usize),
    Refused(u32),
    Holds(usize),
    Rejected(usize, u32),
    None,
    Overload(u32, u32),
    Read(u32, usize),
    Written(usize),
    Marked(u32),
    Record,
    Unreadable,
}

impl From<Refusal> for Saying {
    ghost from_gives = { λ why said. said ≡ Saying.Refused (number_of why) };

    fn from(why: Refusal) -> Saying {
        Saying::Refused(u32::from(why))
    }
}

// A function for each call, all six in one form. A `From` could be four of them: a `Result<usize, Refusal>` does not say that it came from the writer, nor
// a `Result<u32, Refusal>` that jobs are marked.
pub fn narrowing(a: Answer) -> Saying
    ensures { Tells result (says a) }
{
    match a {
        Answer::Settled(count) => Saying::Settled(count),
        Answer::Clash(count, job) => Saying::Clash(count, job),
        Answer::Refused(number) => Saying::Refused(number),
    }
}

pub fn checking(a: CheckAnswer) -> Saying
    ensures { Tells result (says_check a) }
{
    match a {
        CheckAnswer::Holds(count) => Saying::Holds(count),
        CheckAnswer::Clash(count, job) => Saying::Clash(count, job),
        CheckAnswer::Rejected(place, code) => Saying::Rejected(place, code),
        CheckAnswer::Refused(number) => Saying::Refused(number),
    }
}

pub fn overloading(a: Result<Option<Overload>, Refusal>) -> Saying
    ensures { Tells result (says_overload a) }
{
    match a {
        Ok(None) => Saying::None,
        Ok(Some(pair)) => Saying::Overload(pair.a, pair.b),
        Err(why) => Saying::from(why),
    }
}

pub fn reading(a: Result<ProjectRead, Refusal>) -> Saying
    ensures { Tells result (says_read a) }
{
    match a {
        Ok(text) => Saying::Read(text.capacity, text.pairs),
        Err(why) => Saying::from(why),
    }
}

pub fn writing(a: Result<usize, Refusal>) -> Saying
    ensures { Tells result (says_write a) }
{
    match a {
        Ok(bytes) => Saying::Written(bytes),
        Err(why) => Saying::from(why),
    }
}

pub fn marking(a: Result<u32, Refusal>) -> Saying
    ensures { Tells result (says_conflict a) }
{
    match a {
        Ok(count) => Saying::Marked(count),
        Err(why) => Saying::from(why),
    }
}

impl fmt::Display for Saying {
    fn fmt<W: fmt::Write>(&self, f: &mut fmt::Formatter<W>) -> fmt::Result {
        match *self {
            Saying::Settled(count) => write!(f, "settled {count}"),
            Saying::Clash(count, job) => write!(f, "clash {count} {job}"),
            Saying::Refused(number) => write!(f, "refused {number}"),
            Saying::Holds(count) => write!(f, "holds {count}"),
            Saying::Rejected(place, code) => write!(f, "rejected {place} {code}"),
            Saying::None => write!(f, "none"),
            Saying::Overload(a, b) => write!(f, "overload {a} {b}"),
            Saying::Read(capacity, pairs) => write!(f, "read {capacity} {pairs}"),
            Saying::Written(bytes) => write!(f, "written {bytes}"),
            Saying::Marked(count) => write!(f, "marked {count}"),
            Saying::Record => write!(f, "record"),
            Saying::Unreadable => write!(f, "unreadable"),
        }
    }
}
