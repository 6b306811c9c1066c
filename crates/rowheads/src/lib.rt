// The heads of rows (document 01, 'Library layouts'; refusals of document 02, Items 1 and 13): what stands before a row's successors, by its table; several
// numbers of which one is picked; and a successor.
#![tactic(auto)]

ghost use Rattle.std.specs.Prelude.{◌≡◌, ℕ, ◌<◌, drop};
ghost use Rattle.lists.specs.Lists.{◌!◌};
ghost use Rattle.joblist.specs.Limits.{most_jobs};
ghost use Rattle.texts.specs.Tokens.{tokens};
ghost use Rattle.texts.specs.Readings.{numbers_up_to};
ghost use Rattle.scanner.specs.Scan.{GotSays};
ghost use Rattle.projects.specs.Projects.{Head, link};
ghost use Rattle.projects.specs.Tables.{numbered};
ghost use Rattle.rowheads.specs.Heads.{need_head, with_count, head_in};
ghost use Rattle.rowheads.specs.Says.{PickSays, HeadSays};

use answers::Refusal;
use scanner::Got;

// A table of rows: whole jobs on so many resources, as in Patterson's layout; or PSPLIB's precedence relations, and its requests on so many resources.
#[derive(Clone, Copy, Debug, PartialEq, Eq)]
pub enum Table {
    Whole(u32),
    Relations,
    Requests(u32),
}

// Duration, demand of the chosen resource, successor count, and the place behind them. What a row lacks, or what is read later, is 0, as in the Head of
// `need_head` and `bare` (specs/), of which `with_count` makes a whole one: so `HeadSays` says all of them.
#[derive(Clone, Copy, Debug, PartialEq, Eq)]
pub struct RowHead {
    pub duration: u32,
    pub demand: u32,
    pub count: u32,
    pub to: usize,
}

// A successor, from 0.
#[inline(always)]
pub fn read_link(text: &[u8], at: usize, n: u32) -> Result<Got, Refusal>
    ensures { GotSays (link n (tokens (drop at text.now))) text.now result }
{
    let got = scanner::next_up_to(text, at, n, Refusal::Pairs)?;
    if got.value == 0 {
        return Err(Refusal::Pairs);
    }
    Ok(Got {
        value: got.value - 1,
        ..got
    })
}

// m numbers up to `top`; the answer is the one at `res`, 0 where there is none.
pub fn read_numbers(text: &[u8], at: usize, m: u32, top: u32, res: u32) -> Result<Got, Refusal>
    ensures { PickSays (numbers_up_to top m (tokens (drop at text.now))) text.now res result }
{
    let mut picked = 0;
    let mut to = at;
    for i in 0..m {
        let got = scanner::next_up_to(text, to, top, Refusal::AboveLimit)?;
        if i == res {
            picked = got.value;
        }
        to = got.to;
    }
    Ok(Got { value: picked, to })
}

// A duration and a demand for each of k resources.
fn read_need(text: &[u8], at: usize, k: u32, res: u32) -> Result<RowHead, Refusal>
    ensures { HeadSays (need_head k (tokens (drop at text.now))) text.now res result }
{
    let duration = scanner::next_up_to(text, at, screen::MOST_TIME, Refusal::AboveLimit)?;
    let demand = read_numbers(text, duration.to, k, screen::MOST_DEMAND, res)?;
    Ok(RowHead {
        duration: duration.value,
        demand: demand.value,
        count: 0,
        to: demand.to,
    })
}

// The successor count behind the rest of a head.
fn read_count(text: &[u8], n: u32, head: RowHead) -> Result<RowHead, Refusal>
    ensures { (h : Head) (res : ℕ) → h.duration ≡ head.duration → h.demands ! res ≡ head.demand → HeadSays (with_count n h (tokens (drop head.to text.now))) text.now res result }
{
    let count = scanner::next_up_to(text, head.to, n, Refusal::AboveLimit)?;
    Ok(RowHead {
        count: count.value,
        to: count.to,
        ..head
    })
}

// The number of job j and the 1 behind it.
fn read_numbered(text: &[u8], at: usize, j: u32) -> Result<Got, Refusal>
    requires { j < most_jobs }
    ensures { GotSays (numbered j (tokens (drop at text.now))) text.now result }
{
    let number = scanner::next_exactly(text, at, j + 1)?;
    scanner::next_exactly(text, number.to, 1)
}

// What stands before the successors of row j.
#[inline(never)]
pub fn read_front(
    text: &[u8],
    at: usize,
    n: u32,
    table: Table,
    j: u32,
    res: u32,
) -> Result<RowHead, Refusal>
    requires { j < most_jobs }
    ensures { HeadSays (head_in table n j (tokens (drop at text.now))) text.now res result }
{
    match table {
        Table::Whole(resources) => {
            let need = read_need(text, at, resources, res)?;
            read_count(text, n, need)
        }
        Table::Relations => {
            let numbered = read_numbered(text, at, j)?;
            let bare = RowHead {
                duration: 0,
                demand: 0,
                count: 0,
                to: numbered.to,
            };
            read_count(text, n, bare)
        }
        Table::Requests(resources) => {
            let numbered = read_numbered(text, at, j)?;
            read_need(text, numbered.to, resources, res)
        }
    }
}
