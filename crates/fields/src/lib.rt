// The lists and the bytes of a line of input, each its length and then its numbers, read into what the caller lends.
//
// None where the line is another one; no byte more of it is read then.
#![tactic(auto)]

ghost use Rattle.std.specs.Prelude.{◌≤◌, IfSome, length};
ghost use Rattle.io.specs.Counts.{IsPrefixLen};

use intake::{Reader, SHORT};
use std::io::Read;

// Numbers, each behind a space and at most `most`, into all of the lent places.
fn fill<T: TryFrom<u64> + Copy>(
    reader: &mut Reader<impl Read>,
    into: &mut [T],
    most: u64,
) -> Option<()>
where
    T::Error: Drop,
{
    for x in into.iter_mut() {
        *x = T::try_from(reader.number(most)?).ok()?;
    }
    Some(())
}

// The list behind a space, its length and then its numbers, of which there are at most `most`, into the first of the lent words; how many of
// these it takes. There is none where there is no room.
fn list(reader: &mut Reader<impl Read>, into: &mut [u32], most: u32) -> Option<usize>
    ensures { IfSome result (λ taken. taken ≤ length into.old) }
{
    let (length, room) = into.split_first_mut()?;
    let count = reader.number(u64::from(most).min(room.len() as u64))?;
    *length = count as u32;
    fill(reader, &mut room[..count as usize], SHORT)?;
    Some(1 + count as usize)
}

// So many lists, one behind the other; how many words they take.
pub fn lists(
    reader: &mut Reader<impl Read>,
    into: &mut [u32],
    count: usize,
    most: u32,
) -> Option<usize>
    ensures { IfSome result (λ taken. taken ≤ length into.old) }
{
    let mut taken = 0;
    for _ in 0..count {
        taken += list(reader, &mut into[taken..], most)?;
    }
    Some(taken)
}

// The bytes behind a space, their number and then each as a number, into the first of the lent ones; their number.
pub fn bytes(reader: &mut Reader<impl Read>, into: &mut [u8]) -> Option<usize>
    ensures { IfSome result (λ n. IsPrefixLen n into.new) }
{
    let n = reader.number(into.len() as u64)? as usize;
    fill(reader, &mut into[..n], u64::from(u8::MAX))?;
    Some(n)
}
