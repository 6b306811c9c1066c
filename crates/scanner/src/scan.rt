// From byte to token.
ghost use Rattle.std.specs.Prelude.{◌≡◌, Bool, true, ℕ, ◌+◌, ◌-◌, ◌*◌, ◌≤◌, ◌<◌, length, drop};
ghost use Rattle.texts.specs.Tokens.{blank, digit, number, tokens};
ghost use Rattle.scanner.specs.Scan.{from_first, Skipped, held, Capped, Heads, tokens_inside};

// What is held of a number at most; `held` in specs/ says why.
const HELD: u64 = 4294967296;

// The next token: a number with the place behind it, any other one, or none.
#[derive(Drop)]
pub enum Next {
    Number(u64, usize),
    Other,
    End,
}

// Space, tab, carriage return, line feed. Not by `matches!`, which the compiler turns into one comparison after the other, where it finds this in a mask: with
// that a text of Patterson's layout is parsed in 2.4 microseconds instead of 1.9.
#[tactic(auto, unfolding(texts::specs::Tokens::blank))]
fn is_blank(b: u8) -> bool
    ensures { result ≡ blank b }
{
    b == b' ' || b == b'\t' || b == b'\r' || b == b'\n'
}

// The first place from `at` on whose byte passes the test; the text's end where there is none. By index, since that place is the answer: `position` over the
// slice from `at` (not tried) gives how far it is from there, to which `at` would have to be added, cut to the text's length; and None for the end.
pub fn first_where<F: Fn(u8) -> bool>(text: &[u8], at: usize, test: F) -> usize
    requires { F.IsAlwaysCallable test }
    ensures inside { result ≤ length text.now }
    ensures onward { at ≤ length text.now → at ≤ result }
    ensures first { (f : ℕ → Bool) → ((b : ℕ) (r : Bool) → b < 256 → F.post test b r → r ≡ f b) → drop result text.now ≡ from_first f (drop at text.now) }
{
    for i in at..text.len() {
        if test(text[i]) {
            return i;
        }
    }
    text.len()
}

// The first place from `at` on that has no blank.
fn skip(text: &[u8], at: usize) -> usize
    ensures { Skipped text.now at result }
{
    first_where(text, at, |b| !is_blank(b))
}

// The number with one digit more.
fn with_digit(v: u64, b: u8) -> u64
    requires { (v ≤ held) × (digit b ≡ true) }
    ensures { (x : ℕ) → Capped x v → Capped (x * 10 + (b - 48)) result }
{
    (v * 10 + u64::from(b - b'0')).min(HELD)
}

// The token that starts at `at`. By index, since the place behind a number is answered with it.
fn token_at(text: &[u8], at: usize) -> Next
    ensures { Heads (tokens_inside (number 0) (drop at text.now)) text.now result }
{
    let mut v: u64 = 0;
    for i in at..text.len() {
        let b = text[i];
        if is_blank(b) {
            return Next::Number(v, i);
        }
        if !b.is_ascii_digit() {
            return Next::Other;
        }
        v = with_digit(v, b);
    }
    Next::Number(v, text.len())
}

// The first token from `at` on.
pub fn next_number(text: &[u8], at: usize) -> Next
    ensures { Heads (tokens (drop at text.now)) text.now result }
{
    let i = skip(text, at);
    if i < text.len() {
        token_at(text, i)
    } else {
        Next::End
    }
}
