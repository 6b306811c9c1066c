// A line's first word and its numbers, taken one after another.
ghost use Rattle.std.specs.Prelude.{false, ◌≡◌, ◌≤◌, ◌-◌, IfSome, IsNone, length};
ghost use Rattle.intake.specs.Line.{at_byte};

use crate::input::{Cursor, Reader};
use std::io::Read;

// The greatest number of 32 bits.
pub const SHORT: u64 = 4294967295;

// The number with one digit more, where that is at most `most`.
#[inline(always)]
fn longer(value: u64, digit: u8, most: u64) -> Option<u64>
    requires { digit ≤ 9 }
    ensures { IfSome result (λ more. more ≤ most) }
{
    let (tenth, digit) = (most / 10, u64::from(digit));
    if value < tenth || (value == tenth && digit <= most % 10) {
        Some(10 * value + digit)
    } else {
        None
    }
}

impl<R: Read> Reader<'_, R> {
    // The number behind a space, at most `most`: one or more digits, however many zeros come first. None where the line has no such
    // number there; no byte more of it is read then. Behind a space that no digit follows there is none: it takes two bytes or more.
    #[inline(always)]
    pub fn number(&mut self, most: u64) -> Option<u64>
        ensures within { IfSome result (λ value. value ≤ most) }
        ensures no_space { at_byte self.old.cursor.now 32 ≡ false → IsNone result }
        ensures no_digit { IfSome result (λ value. self.new.cursor.left ≤ self.old.cursor.left - 2) }
    {
        let mut cursor = self.cursor;
        let value = self.number_from(&mut cursor, most);
        self.cursor = cursor;
        value
    }

    // The same, by a cursor that the caller holds.
    #[inline(always)]
    fn number_from(&mut self, cursor: &mut Cursor, most: u64) -> Option<u64>
        ensures within { IfSome result (λ value. value ≤ most) }
        ensures no_space { at_byte cursor.old.now 32 ≡ false → IsNone result }
        ensures no_digit { IfSome result (λ value. cursor.new.left ≤ cursor.old.left - 2) }
    {
        if !cursor.is_at(b' ') {
            return None;
        }
        *cursor = self.after(*cursor);
        cursor.digit()?;
        let mut value: u64 = 0;
        while let Some(digit) = cursor.digit() {
            value = longer(value, digit, most)?;
            *cursor = self.after(*cursor);
        }
        Some(value)
    }

    // A line's first word, or as much of it as the lent bytes hold.
    pub fn word<'b>(&mut self, into: &'b mut [u8]) -> &'b [u8]
        ensures { length result.now ≤ length into.old }
    {
        for n in 0..into.len() {
            match self.cursor.now {
                None | Some(b' ' | b'\n') => return &into[..n],
                Some(byte) => into[n] = byte,
            }
            self.step();
        }
        into
    }
}
