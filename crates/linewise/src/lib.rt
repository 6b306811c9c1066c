// The lines of a text (document 01, 'Library layouts'): from place to place along them, the place behind so many of them, and the number behind the colon
// of one.
#![tactic(auto)]

ghost use Rattle.std.specs.Prelude.{◌≡◌, drop};
ghost use Rattle.headings.specs.Lines.{behind, next_line, behind_lines, counted};
ghost use Rattle.headings.specs.Headings.{starts_with, unspaced};
ghost use Rattle.linewise.specs.Says.{LineTo, CountSays};

use answers::Refusal;

// Whether these bytes stand at `at`.
pub fn starts_at(text: &[u8], at: usize, word: &[u8]) -> bool
    ensures { result ≡ starts_with word.now (drop at text.now) }
{
    text[at.min(text.len())..].starts_with(word)
}

// The first place from `at` on that has no space.
pub fn unspaced_at(text: &[u8], at: usize) -> usize
    ensures { drop result text.now ≡ unspaced (drop at text.now) }
{
    scanner::first_where(text, at, |b| b != b' ')
}

// The place behind the first byte b from `at` on; the text's end where there is none.
fn behind(text: &[u8], at: usize, b: u8) -> usize
    ensures { drop result text.now ≡ behind b (drop at text.now) }
{
    let found = scanner::first_where(text, at, |c| c == b);
    if found < text.len() { found + 1 } else { found }
}

// The start of the next line; the text's end where there is none.
pub fn next_line(text: &[u8], at: usize) -> usize
    ensures { drop result text.now ≡ next_line (drop at text.now) }
{
    behind(text, at, b'\n')
}

// The end of the line that `at` stands in, its line feed left out.
fn line_end(text: &[u8], at: usize) -> usize
    ensures { LineTo text.now at result }
{
    scanner::first_where(text, at, |b| b == b'\n')
}

// The place behind m lines from `at` on.
pub fn behind_lines(text: &[u8], at: usize, m: u32) -> usize
    ensures { drop result text.now ≡ behind_lines m (drop at text.now) }
{
    let mut to = at;
    for _ in 0..m {
        to = next_line(text, to);
    }
    to
}

// The number behind the first colon of the line from `at` on: 30 where none stands there, 31 where it is above `top`.
pub fn count_at(text: &[u8], at: usize, top: u32) -> Result<u32, Refusal>
    ensures { CountSays (counted top (drop at text.now)) result }
{
    let end = line_end(text, at);
    let line = &text[..end];
    let from = behind(line, at, b':');
    let got = scanner::next_up_to(line, from, top, Refusal::AboveLimit)?;
    Ok(got.value)
}
