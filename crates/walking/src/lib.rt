// The rows of a table walked (document 01, 'Library layouts'; refusals of document 02, Items 1 and 13), in either layout: one step along them, and all of
// them checked.
#![tactic(auto)]

ghost use Rattle.std.specs.Prelude.{◌≤◌, drop};
ghost use Rattle.joblist.specs.Limits.{most_jobs};
ghost use Rattle.texts.specs.Tokens.{tokens};
ghost use Rattle.walking.specs.Walk.{Fit, StepSays, WalkedSays, seeing};

use answers::Refusal;
use rowheads::Table;

// A place among the rows: the next row, the successors left of the row before it, and the place in the text.
#[derive(Clone, Copy, Debug, PartialEq, Eq)]
pub struct Walk {
    pub next: u32,
    pub left: u32,
    pub at: usize,
}

// A successor; a row's duration and demand; the end of the rows.
#[derive(Clone, Copy, Debug, PartialEq, Eq)]
pub enum Step {
    Successor(u32, Walk),
    Begun(u32, u32, Walk),
    Done,
}

// The rows read: the jobs' durations and their demands of one resource, each in its job's place; the number of pairs; and the place behind the rows.
#[derive(Clone, Copy, Debug, PartialEq, Eq)]
pub struct Walked {
    pub dur: [u32; screen::MOST_JOBS],
    pub dem: [u32; screen::MOST_JOBS],
    pub pairs: usize,
    pub at: usize,
}

// One step along the rows. Text, n, table and res go side by side here, in `validate` and in `rowheads::read_front`, and stand in precedence's TextPairs (res is
// 0 there): `head_in`, `seeing`, `comes` and `StepSays` take them one by one, and a struct of them would be taken apart in each contract and in each proof up to
// `layouts` that cites these. Inlined, with `read_front` left as a call: so the place stays in registers from successor to successor, which halves the time of a
// text that is read in many rounds.
#[inline(always)]
pub fn advance(text: &[u8], n: u32, table: Table, res: u32, w: Walk) -> Result<Step, Refusal>
    requires { Fit n w × (n ≤ most_jobs) }
    ensures { StepSays n table res text.now w result }
{
    if 0 < w.left {
        let successor = rowheads::read_link(text, w.at, n)?;
        let rest = Walk {
            left: w.left - 1,
            at: successor.to,
            ..w
        };
        Ok(Step::Successor(successor.value, rest))
    } else if w.next == n {
        Ok(Step::Done)
    } else {
        let head = rowheads::read_front(text, w.at, n, table, w.next, res)?;
        let rest = Walk {
            next: w.next + 1,
            left: head.count,
            at: head.to,
        };
        Ok(Step::Begun(head.duration, head.demand, rest))
    }
}

// All rows from `at` on. Each turn takes a token.
pub fn validate(text: &[u8], at: usize, n: u32, table: Table, res: u32) -> Result<Walked, Refusal>
    requires { n ≤ most_jobs }
    ensures { WalkedSays (seeing n table res 0 0 (tokens (drop at text.now))) text.now n result }
{
    let mut dur = [0; screen::MOST_JOBS];
    let mut dem = [0; screen::MOST_JOBS];
    let mut w = Walk {
        next: 0,
        left: 0,
        at,
    };
    let mut pairs: usize = 0;
    loop {
        match advance(text, n, table, res, w)? {
            Step::Successor(_, u) => {
                pairs += 1;
                w = u;
            }
            Step::Begun(d, q, u) => {
                let j = w.next as usize;
                dur[j] = d;
                dem[j] = q;
                w = u;
            }
            Step::Done => {
                return Ok(Walked {
                    dur,
                    dem,
                    pairs,
                    at: w.at,
                });
            }
        }
    }
}
