// The pairs of a text, met one by one along its rows.
ghost use Rattle.std.specs.Prelude.{◌≡◌, ◌≤◌};
ghost use Rattle.joblist.specs.Limits.{most_jobs};
ghost use Rattle.walking.specs.Walk.{Fit};
ghost use Rattle.walking.specs.Comes.{rows_at};

use passes::Pairs;
use rowheads::Table;
use walking::{Step, Walk};

// The pairs still to come at a place of a walk along the rows. They end where a row is refused.
#[derive(Clone, Copy)]
pub struct TextPairs<'a> {
    pub text: &'a [u8],
    pub n: u32,
    pub table: Table,
    pub walk: Walk,
    ghost fit: { Fit n walk },
    ghost few: { n ≤ most_jobs },
}

impl<'a> TextPairs<'a> {
    // Those of the n rows that begin at place `at`.
    pub fn new(text: &'a [u8], n: u32, table: Table, at: usize) -> TextPairs<'a>
        requires { n ≤ most_jobs }
        ensures { (result.text.now ≡ text.now) × (result.n ≡ n) × (result.table ≡ table) × (result.walk ≡ rows_at at) }
    {
        TextPairs {
            text,
            n,
            table,
            walk: Walk {
                next: 0,
                left: 0,
                at,
            },
        }
    }
}

impl<'a> Iterator for TextPairs<'a> {
    type Item = (u32, u32);

    ghost use Rattle.precedence.specs.Pairs.{Pulled, left};
    ghost use Rattle.std.specs.Iterator.{at_most};

    ghost next_gives = { Pulled };

    ghost remaining = { λ s. at_most (left s) };

    #[inline(always)]
    fn next(&mut self) -> Option<(u32, u32)> {
        loop {
            match walking::advance(self.text, self.n, self.table, 0, self.walk) {
                Ok(Step::Successor(v, walk)) => {
                    let job = self.walk.next - 1;
                    self.walk = walk;
                    return Some((job, v));
                }
                Ok(Step::Begun(_, _, walk)) => self.walk = walk,
                Ok(Step::Done) => return None,
                Err(_) => return None,
            }
        }
    }
}

impl<'a> Pairs for TextPairs<'a> {
    ghost use Rattle.precedence.specs.Pairs.{coming, pulled_draws};

    ghost coming = { coming };

    ghost draws = { pulled_draws };

    ghost ends = { λ s. tt };
}
