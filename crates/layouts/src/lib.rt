// Project texts read (document 02, Items 1 and 13): a job list and its precedence pairs are made of a partner's text. What is decided is decided before
// (`deciding`), and the lent lists are filled behind the last refusal. The readers differ in their layouts alone.
#![tactic(auto)]

ghost use Rattle.answers.specs.Said.{says_read};
ghost use Rattle.projects.specs.Patterson.{patterson};
ghost use Rattle.psplib.specs.Psplib.{psplib};
ghost use Rattle.exchange.specs.Promise.{Reads};

use answers::{ProjectRead, Refusal};
use deciding::{Layout, Patterson, Psplib};
use lent::Sizes;
use precedence::TextPairs;

// Fills the six lists from a text of a layout, for one resource (from 0) and a horizon. Nine parameters, here and below: the calls of document 01 name each
// list that is lent, and one struct of six `&mut` would be made, and taken apart again, for one inner call.
fn read<L: Layout>(
    text: &[u8],
    resource: u32,
    horizon: u32,
    est: &mut [u32],
    lct: &mut [u32],
    dur: &mut [u32],
    dem: &mut [u32],
    jobs: &mut [u32],
    successors: &mut [u32],
) -> Result<ProjectRead, Refusal>
    ensures { Reads
        (record { text = L.says text.now; resource = resource; horizon = horizon; lent = record { est = est.old; lct = lct.old; dur = dur.old; dem = dem.old; jobs = jobs.old; successors = successors.old } })
        (record { says = says_read result; lent = record { est = est.new; lct = lct.new; dur = dur.new; dem = dem.new; jobs = jobs.new; successors = successors.new } }) }
{
    let sizes = Sizes {
        est: est.len(),
        lct: lct.len(),
        dur: dur.len(),
        dem: dem.len(),
        jobs: jobs.len(),
        successors: successors.len(),
    };
    let decided = deciding::decide::<L>(text, resource, horizon, sizes)?;
    let shape = decided.shape;
    lent::fill(decided.draft, horizon, est, lct, dur, dem);
    let pairs = TextPairs::new(text, shape.n, shape.table, shape.at);
    lent::write_pairs(pairs, jobs, successors);
    Ok(ProjectRead {
        capacity: shape.cap,
        pairs: shape.pairs,
    })
}

// The lists from a text of the Patterson layout.
pub fn read_patterson(
    text: &[u8],
    resource: u32,
    horizon: u32,
    est: &mut [u32],
    lct: &mut [u32],
    dur: &mut [u32],
    dem: &mut [u32],
    jobs: &mut [u32],
    successors: &mut [u32],
) -> Result<ProjectRead, Refusal>
    ensures { Reads
        (record { text = patterson text.now; resource = resource; horizon = horizon; lent = record { est = est.old; lct = lct.old; dur = dur.old; dem = dem.old; jobs = jobs.old; successors = successors.old } })
        (record { says = says_read result; lent = record { est = est.new; lct = lct.new; dur = dur.new; dem = dem.new; jobs = jobs.new; successors = successors.new } }) }
{
    read::<Patterson>(
        text, resource, horizon, est, lct, dur, dem, jobs, successors,
    )
}

// The same from a text of the PSPLIB layout.
pub fn read_psplib(
    text: &[u8],
    resource: u32,
    horizon: u32,
    est: &mut [u32],
    lct: &mut [u32],
    dur: &mut [u32],
    dem: &mut [u32],
    jobs: &mut [u32],
    successors: &mut [u32],
) -> Result<ProjectRead, Refusal>
    ensures { Reads
        (record { text = psplib text.now; resource = resource; horizon = horizon; lent = record { est = est.old; lct = lct.old; dur = dur.old; dem = dem.old; jobs = jobs.old; successors = successors.old } })
        (record { says = says_read result; lent = record { est = est.new; lct = lct.new; dur = dur.new; dem = dem.new; jobs = jobs.new; successors = successors.new } }) }
{
    read::<Psplib>(
        text, resource, horizon, est, lct, dur, dem, jobs, successors,
    )
}
