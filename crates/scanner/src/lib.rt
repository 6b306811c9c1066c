// The tokens of a text, one number at a time (document 01, 'Library layouts'). A number may have any length. A place in the text is a plain number beside
// it, here and in the crates above: it is handed on and back, and `drop at text`, what is left from there, is what the contracts speak of.
#![tactic(auto)]

mod scan;

ghost use Rattle.std.specs.Prelude.{◌≡◌, drop};
ghost use Rattle.answers.specs.Said.{number_of};
ghost use Rattle.texts.specs.Tokens.{tokens};
ghost use Rattle.texts.specs.Readings.{one, exactly};
ghost use Rattle.scanner.specs.Scan.{GotSays, none?};

use answers::Refusal;
pub use scan::first_where;
use scan::{Next, next_number};

// A number with the place behind it.
#[derive(Clone, Copy, Debug, PartialEq, Eq)]
pub struct Got {
    pub value: u32,
    pub to: usize,
}

// The next number from `at` on: 30 where none stands there, the given refusal where it is above `top`.
pub fn next_up_to(text: &[u8], at: usize, top: u32, refusal: Refusal) -> Result<Got, Refusal>
    ensures { GotSays (one top (number_of refusal) (tokens (drop at text.now))) text.now result }
{
    match next_number(text, at) {
        Next::Number(v, to) => match u32::try_from(v) {
            Ok(value) if value <= top => Ok(Got { value, to }),
            _ => Err(refusal),
        },
        Next::Other | Next::End => Err(Refusal::NoNumber),
    }
}

// The number v from `at` on: 30 where anything else stands there.
pub fn next_exactly(text: &[u8], at: usize, v: u32) -> Result<Got, Refusal>
    ensures { GotSays (exactly v (tokens (drop at text.now))) text.now result }
{
    let got = next_up_to(text, at, v, Refusal::NoNumber)?;
    if got.value == v {
        Ok(got)
    } else {
        Err(Refusal::NoNumber)
    }
}

// Whether nothing but blanks is left from `at` on.
pub fn is_over(text: &[u8], at: usize) -> bool
    ensures { result ≡ none? (tokens (drop at text.now)) }
{
    matches!(next_number(text, at), Next::End)
}
