// The bytes of standard input, one after another, line by line.
//
// The input comes in parts of any size into a source that the caller lends; a small cursor says at which byte a reader stands.
ghost use Rattle.std.specs.Prelude.{true, false, ◌≡◌, ◌≤◌, ◌<◌, ◌-◌, IfSome, IsSome, IsNone};
ghost use Rattle.intake.specs.Line.{line_end, at_byte, at_digit};

use std::io::Read;

// The greatest number of 64 bits.
pub const LONG: u64 = u64::MAX;

// `now` is the byte that the cursor stands at, and none at the end of the input. `left` is how many bytes may still be stood at, and 0 at the
// end. Nothing says that an input ends, and a proved loop has to: so it begins with a number that no run uses up, and falls with each byte.
#[derive(Clone, Copy)]
pub struct Cursor {
    pub now: Option<u8>,
    pub left: u64,
    ghost allowed: { IsSome now → 0 < left },
}

impl Cursor {
    pub(crate) fn is_at(self, byte: u8) -> bool
        ensures { result ≡ at_byte self.now byte }
    {
        self.now == Some(byte)
    }

    // The digit that it stands at, if it does.
    pub(crate) fn digit(self) -> Option<u8>
        ensures within { IfSome result (λ d. (d ≤ 9) × (0 < self.left)) }
        ensures some { IsSome result → at_digit self.now ≡ true }
        ensures none { IsNone result → at_digit self.now ≡ false }
    {
        match self.now {
            Some(byte @ b'0'..=b'9') => Some(byte - b'0'),
            _ => None,
        }
    }

    pub fn is_line_end(self) -> bool
        ensures value { result ≡ line_end self.now }
        ensures left_nonzero { result ≡ false → 0 < self.left }
    {
        matches!(self.now, None | Some(b'\n'))
    }
}

// An input, and the cursor in it. The bytes from `at` up to `end` of the source wait behind the cursor.
#[derive(Drop)]
pub struct Reader<'a, R: Read> {
    input: &'a mut R,
    source: &'a mut [u8],
    at: usize,
    end: usize,
    pub cursor: Cursor,
}

impl<'a, R: Read> Reader<'a, R> {
    // At the first byte of the input.
    pub fn new(input: &'a mut R, source: &'a mut [u8]) -> Reader<'a, R> {
        let cursor = Cursor {
            now: None,
            left: LONG,
        };
        let mut reader = Reader {
            input,
            source,
            at: 0,
            end: 0,
            cursor,
        };
        reader.step();
        reader
    }

    // Where no byte waits, those of the next read wait; the end of the input, or a read that fails, brings none. Out of line: it is rare, and
    // what goes over the bytes that wait is shorter without it.
    #[cold]
    #[inline(never)]
    fn refill(&mut self)
        ensures { self.new.cursor.left ≡ self.old.cursor.left }
    {
        self.at = 0;
        self.end = self.input.read(self.source).unwrap_or(0);
    }

    // The first byte that waits: where none does, the first of the next read, of which the end of the input, or a read that fails, brings none.
    #[inline(always)]
    fn next_byte(&mut self) -> Option<u8>
        ensures { self.new.cursor.left ≡ self.old.cursor.left }
    {
        if self.at >= self.end {
            self.refill();
        }
        let at = self.at;
        if at < self.end && at < self.source.len() {
            self.at = at + 1;
            return Some(self.source[at]);
        }
        None
    }

    // The cursor one byte further on than the given one, which stands where the reader does. At the end of the input it stays. The reader's own
    // is the caller's to set: so a loop keeps its cursor in registers, and not in memory byte by byte.
    #[inline(always)]
    pub(crate) fn after(&mut self, cursor: Cursor) -> Cursor
        ensures { result.left ≤ cursor.left - 1 }
    {
        if 1 < cursor.left {
            if let Some(byte) = self.next_byte() {
                return Cursor {
                    now: Some(byte),
                    left: cursor.left - 1,
                };
            }
        }
        Cursor { now: None, left: 0 }
    }

    // One byte further on. At the end of the input it stays.
    pub(crate) fn step(&mut self)
        ensures { self.new.cursor.left ≤ self.old.cursor.left - 1 }
    {
        self.cursor = self.after(self.cursor);
    }

    // At the next line's first byte.
    pub fn next_line(&mut self)
        ensures { self.new.cursor.left ≤ self.old.cursor.left - 1 }
    {
        let mut cursor = self.cursor;
        while !cursor.is_line_end() {
            cursor = self.after(cursor);
        }
        self.cursor = self.after(cursor);
    }
}
