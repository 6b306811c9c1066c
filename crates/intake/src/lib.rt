// A line of standard input, read word by word: its first word, and the numbers behind it.
#![tactic(auto)]

mod input; // input.rt: the bytes, one after another
mod words; // words.rt: words and numbers

pub use input::{Cursor, LONG, Reader};
pub use words::SHORT;
