// A text of the PSPLIB layout read whole (document 01, 'Library layouts'; refusals of document 02, Items 1 and 13): its headings, the two counts, and
// its three tables.
#![tactic(auto)]

ghost use Rattle.std.specs.Prelude.{◌≤◌, drop};
ghost use Rattle.joblist.specs.Limits.{most_jobs};
ghost use Rattle.parsing.specs.Parsed.{ParsedSays};
ghost use Rattle.psplib.specs.Psplib.{tables, psplib};

use answers::Refusal;
use parsing::{Parsed, Shape};
use rowheads::Table;
use walking::Walked;

// How many lines a table's rows stand behind: the heading's and the column names'; for the requests a line of hyphens too.
const BEHIND_NAMES: u32 = 2;

const BEHIND_HYPHENS: u32 = 3;

// Where the headings of the three tables start.
#[derive(Clone, Copy, Debug, PartialEq, Eq)]
struct Tables {
    relations: usize,
    requests: usize,
    capacities: usize,
}

// The whole text.
pub fn parse(text: &[u8], res: u32) -> Result<Parsed, Refusal>
    ensures { ParsedSays (psplib text.now) text.now res result }
{
    let places = seeker::find(text).ok_or(Refusal::Headings)?;
    let [jobs, resources, relations, requests, capacities] = places;
    let n = linewise::count_at(text, jobs, screen::MOST_JOBS as u32)?;
    let k = linewise::count_at(text, resources, screen::MOST_RESOURCES)?;
    let from = Tables {
        relations,
        requests,
        capacities,
    };
    read_tables(text, n, k, from, res)
}

// The three tables of n jobs on k resources: the pairs are those of the relations, durations and demands those of the requests.
fn read_tables(text: &[u8], n: u32, k: u32, from: Tables, res: u32) -> Result<Parsed, Refusal>
    requires { n ≤ most_jobs }
    ensures { ParsedSays (tables n k (drop from.relations text.now) (drop from.requests text.now) (drop from.capacities text.now)) text.now res result }
{
    let at = linewise::behind_lines(text, from.relations, BEHIND_NAMES);
    let related = walking::validate(text, at, n, Table::Relations, res)?;
    let requests = linewise::behind_lines(text, from.requests, BEHIND_HYPHENS);
    let Walked { dur, dem, .. } = walking::validate(text, requests, n, Table::Requests(k), res)?;
    let capacities = linewise::behind_lines(text, from.capacities, BEHIND_NAMES);
    let capacity = rowheads::read_numbers(text, capacities, k, screen::MOST_DEMAND, res)?;
    let shape = Shape {
        n,
        k,
        cap: capacity.value,
        pairs: related.pairs,
        table: Table::Relations,
        at,
    };
    Ok(Parsed { shape, dur, dem })
}
