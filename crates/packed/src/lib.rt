// Lists packed into one list of words, one behind the other, each as its length and then its numbers: found, copied out and put back.
// They stand as a line of input or output has them (docs/ANSWERS.md), where a length is a word as the numbers are, so the lists are no slices that a
// caller has: he lends the words, and the room of a copy. Nothing here knows of jobs.
#![tactic(auto)]

ghost use Rattle.std.specs.Prelude.{◌≡◌, ◌≤◌, suc, length, take};
ghost use Rattle.io.specs.Counts.{IsPrefixLen};
ghost use Rattle.packed.specs.Packed.{behind_at, start_of, list_of, put_at, first_of, Copied};

use std::ops::Range;

// Where the list behind the one at a place begins.
fn behind(words: &[u32], at: usize) -> usize
    ensures { result ≡ behind_at words.now at }
{
    match words.get(at) {
        Some(&n) => (at + 1 + n as usize).min(words.len()),
        None => words.len(),
    }
}

// Where list k begins, with its length.
pub fn start(words: &[u32], k: usize) -> usize
    ensures value { result ≡ start_of words.now k }
    ensures prefix_len { IsPrefixLen result words.now }
{
    let mut at = 0;
    for _ in 0..k {
        at = behind(words, at);
    }
    at
}

// Where the numbers of list k stand, behind its length; at the end of the words where there is no such list.
fn place(words: &[u32], k: usize) -> Range<usize>
    ensures first { result.start ≡ first_of words.now k }
    ensures end { result.end ≡ start_of words.now (suc k) }
    ensures within { (result.start ≤ result.end) × (result.end ≤ length words.now) }
{
    let at = start(words, k);
    let end = behind(words, at);
    (at + 1).min(end)..end
}

// The numbers of list k.
pub fn list(words: &[u32], k: usize) -> &[u32]
    ensures { result.now ≡ list_of words.now k }
{
    &words[place(words, k)]
}

// The same, lent to be changed. (A function that is generic over whether it lends to be changed, the language has none of.)
pub fn list_mut(words: &mut [u32], k: usize) -> &mut [u32]
    ensures { result.now ≡ list_of words.old k }
{
    let numbers = place(words, k);
    &mut words[numbers]
}

// The numbers of list k copied over the front of another list, as far as both go; the answer is how many.
pub fn copy(words: &[u32], k: usize, into: &mut [u32]) -> usize
    ensures { Copied (list_of words.now k) into.old result into.new }
{
    let numbers = list(words, k);
    windows::copy(numbers, into);
    numbers.len().min(into.len())
}

// The same, and what was copied is lent.
pub fn copied<'a>(words: &[u32], k: usize, into: &'a mut [u32]) -> &'a mut [u32]
    ensures { result.now ≡ take (length into.old) (list_of words.now k) }
{
    let n = copy(words, k, into);
    &mut into[..n]
}

// The first four lists copied out likewise.
pub fn copied_four<'a>(
    words: &[u32],
    a: &'a mut [u32],
    b: &'a mut [u32],
    c: &'a mut [u32],
    d: &'a mut [u32],
) -> (&'a mut [u32], &'a mut [u32], &'a mut [u32], &'a mut [u32])
    ensures first { result.0.now ≡ take (length a.old) (list_of words.now 0) }
    ensures second { result.1.now ≡ take (length b.old) (list_of words.now 1) }
    ensures third { result.2.now ≡ take (length c.old) (list_of words.now 2) }
    ensures fourth { result.3.now ≡ take (length d.old) (list_of words.now 3) }
{
    let first = copied(words, 0, a);
    let second = copied(words, 1, b);
    let third = copied(words, 2, c);
    let fourth = copied(words, 3, d);
    (first, second, third, fourth)
}

// A list laid over the front of list k, as far as both go.
pub fn put(words: &mut [u32], k: usize, list: &[u32])
    ensures { words.new ≡ put_at words.old k list.now }
{
    let numbers = place(words, k);
    windows::copy(list, &mut words[numbers]);
}
