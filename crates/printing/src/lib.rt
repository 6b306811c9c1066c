// Lines of output: the form that the programs write answers in (document 01, 'Runs on the record').
//
// The bytes wait in a sink until it is full or a line ends, and are then written out to the handle that the sink was made with. A write that fails is
// passed over, so nothing that is shown in a sink fails.
#![tactic(auto)]

ghost use Rattle.std.specs.Prelude.{◌≡◌, ◌<◌, set};
ghost use Rattle.printing.specs.declared.TheConstants.{ROOM};

use std::fmt;
use std::fmt::{Display, Write};

// The bytes that can wait: as many as `io::large_buffer` has.
pub const ROOM: usize = 65536;

// What waits are the first `at` bytes.
#[derive(Drop)]
pub struct Sink<'a, P: Print> {
    out: &'a P,
    pub bytes: [u8; ROOM],
    pub at: usize,
    ghost inside: { at < ROOM },
}

impl<'a, P: Print> Sink<'a, P> {
    pub fn new(out: &'a P) -> Sink<'a, P>
        ensures { result.at ≡ 0 }
    {
        Sink {
            out,
            bytes: io::large_buffer(),
            at: 0,
        }
    }

    pub fn byte(&mut self, b: u8)
        ensures { self.new.bytes ≡ set self.old.bytes self.old.at b }
    {
        self.bytes[self.at] = b;
        if self.at + 1 < ROOM {
            self.at += 1;
        } else {
            let _ = self.out.write_all(&self.bytes);
            self.at = 0;
        }
    }

    pub fn show(&mut self, x: impl Display + Drop) {
        let _ = write!(self, "{x}");
    }

    // Each number behind a space: every number but a line's first word.
    pub fn numbers<T: Display>(&mut self, xs: &[T]) {
        for x in xs {
            let _ = write!(self, " {x}");
        }
    }

    // A list: its length and then its numbers.
    pub fn list<T: Display>(&mut self, xs: &[T]) {
        self.numbers(&[xs.len()]);
        self.numbers(xs);
    }

    // Ends a line, and writes out what waits.
    pub fn finish(&mut self)
        ensures bytes { self.new.bytes ≡ set self.old.bytes self.old.at 10 }
        ensures empty { self.new.at ≡ 0 }
    {
        self.byte(b'\n');
        let _ = self.out.write_all(&self.bytes[..self.at]);
        self.at = 0;
    }
}

impl<P: Print> Write for Sink<'_, P> {
    fn write_str(&mut self, s: &str) -> fmt::Result {
        for b in s.as_bytes() {
            self.byte(*b);
        }
        Ok(())
    }
}
