// A text of the Patterson layout read whole (document 01, 'Library layouts'; refusals of document 02, Item 1): its counts and capacities, then its rows.
#![tactic(auto)]

ghost use Rattle.texts.specs.Tokens.{tokens};
ghost use Rattle.projects.specs.Patterson.{opening, patterson};
ghost use Rattle.parsing.specs.Parsed.{OpenSays, ParsedSays};

use answers::Refusal;
use rowheads::Table;
use walking::Walked;

// Job count, resource count, the chosen capacity (0 where there is no such resource) and the place of the rows.
#[derive(Clone, Copy, Debug, PartialEq, Eq)]
struct Opened {
    n: u32,
    k: u32,
    cap: u32,
    at: usize,
}

// Job count, resource count, the chosen capacity, the pair count, and where the rows with the pairs stand.
#[derive(Clone, Copy, Debug, PartialEq, Eq)]
pub struct Shape {
    pub n: u32,
    pub k: u32,
    pub cap: u32,
    pub pairs: usize,
    pub table: Table,
    pub at: usize,
}

// A text read whole, with its jobs' durations and their demands of one resource, each in its job's place.
#[derive(Clone, Copy, Debug, PartialEq, Eq)]
pub struct Parsed {
    pub shape: Shape,
    pub dur: [u32; screen::MOST_JOBS],
    pub dem: [u32; screen::MOST_JOBS],
}

// The counts and the capacities.
fn open_text(text: &[u8], res: u32) -> Result<Opened, Refusal>
    ensures { OpenSays (opening (tokens text.now)) text.now res result }
{
    let jobs = scanner::next_up_to(text, 0, screen::MOST_JOBS as u32, Refusal::AboveLimit)?;
    let resources = scanner::next_up_to(
        text,
        jobs.to,
        screen::MOST_RESOURCES,
        Refusal::AboveLimit,
    )?;
    let capacity = rowheads::read_numbers(
        text,
        resources.to,
        resources.value,
        screen::MOST_DEMAND,
        res,
    )?;
    Ok(Opened {
        n: jobs.value,
        k: resources.value,
        cap: capacity.value,
        at: capacity.to,
    })
}

// A whole text of the Patterson layout.
pub fn parse(text: &[u8], res: u32) -> Result<Parsed, Refusal>
    ensures { ParsedSays (patterson text.now) text.now res result }
{
    let opened = open_text(text, res)?;
    let table = Table::Whole(opened.k);
    let Walked {
        dur,
        dem,
        pairs,
        at,
    } = walking::validate(text, opened.at, opened.n, table, res)?;
    if !scanner::is_over(text, at) {
        return Err(Refusal::NoNumber);
    }
    let shape = Shape {
        n: opened.n,
        k: opened.k,
        cap: opened.cap,
        pairs,
        table,
        at: opened.at,
    };
    Ok(Parsed { shape, dur, dem })
}
