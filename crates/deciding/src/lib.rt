// Whether a project text is taken, whatever its layout (document 02, Items 1 and 13): every refusal is decided here, on numbers and on arrays of its own,
// before a lent word is written. What the lists are filled from stands in the arrays then. The pairs are not stored: chains are found, and pairs
// written, by reading the text again (docs/DECISIONS.md says why).
#![tactic(auto)]

mod layout;

ghost use Rattle.exchange.specs.Calls.{Lent};
ghost use Rattle.deciding.specs.Decided.{LongAs, DecidedSays};

use answers::Refusal;
pub use layout::{Layout, Patterson, Psplib};
use lent::{Draft, Sizes};
use parsing::{Parsed, Shape};
use precedence::TextPairs;

// A text that is taken: how it was read, and what the lists are filled from.
#[derive(Clone, Copy)]
pub struct Decided {
    pub shape: Shape,
    pub draft: Draft,
}

// Whether a text is taken, for one resource (from 0) and a horizon, with lent lists of these lengths: the tests in their order, of which that of the horizon
// comes first.
pub fn decide<L: Layout>(
    text: &[u8],
    resource: u32,
    horizon: u32,
    sizes: Sizes,
) -> Result<Decided, Refusal>
    ensures { (lent : Lent) → LongAs lent sizes → DecidedSays
        (record { text = L.says text.now; resource = resource; horizon = horizon; lent = lent }) text.now result }
{
    if screen::MOST_TIME < horizon {
        return Err(Refusal::AboveLimit);
    }
    let Parsed { shape, dur, dem } = L::parse(text, resource)?;
    if shape.k <= resource {
        return Err(Refusal::Resource);
    }
    if !sizes.roomy(shape.n, shape.pairs) {
        return Err(Refusal::Lists);
    }
    let mut heads = [0u32; screen::MOST_JOBS];
    let mut tails = [0u32; screen::MOST_JOBS];
    let pairs = TextPairs::new(text, shape.n, shape.table, shape.at);
    precedence::longest_chains(pairs, &dur, horizon, &mut heads, &mut tails)?;
    let draft = Draft {
        heads,
        tails,
        dur,
        dem,
    };
    Ok(Decided { shape, draft })
}
