// The headings of a PSPLIB text (document 01, 'Library layouts'): whether its lines have the five in order, and where each of them starts.
#![tactic(auto)]

ghost use Rattle.std.specs.Prelude.{drop};
ghost use Rattle.seeker.specs.Found.{StandsSays, FindSays};

// How many headings there are.
pub const HEADINGS: usize = 5;

// The headings in their order.
const WORDING: [&[u8]; HEADINGS] = [
    b"jobs (incl. supersource/sink ):",
    b"- renewable",
    b"PRECEDENCE RELATIONS:",
    b"REQUESTS/DURATIONS:",
    b"RESOURCEAVAILABILITIES:",
];

// Which heading starts at `at`, from 0.
fn heading_at(text: &[u8], at: usize) -> Option<usize>
    ensures { StandsSays (drop at text.now) result }
{
    WORDING
        .iter()
        .position(|heading| linewise::starts_at(text, at, heading))
}

// Where each heading starts, if the lines have each once and in order. Each turn takes a line, and a line has a byte at least.
pub fn find(text: &[u8]) -> Option<[usize; HEADINGS]>
    ensures { FindSays text.now result }
{
    let mut places = [0; HEADINGS];
    let mut found = 0;
    let mut at = 0;
    while at < text.len() {
        let from = linewise::unspaced_at(text, at);
        if let Some(k) = heading_at(text, from) {
            if k != found {
                return None;
            }
            places[k] = from;
            found += 1;
        }
        at = linewise::next_line(text, at);
    }
    (found == HEADINGS).then_some(places)
}
