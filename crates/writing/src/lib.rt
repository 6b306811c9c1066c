// The writer of project texts (document 02, Item 13): the tests in their order, and then the text, which the lists say.
#![tactic(auto)]

ghost use Rattle.answers.specs.Said.{says_write};
ghost use Rattle.exchange.specs.Write.{Writes};

use answers::Refusal;
use listed::Listed;
use scribe::Project;

// Writes a project of one resource into the buffer, in our form of the Patterson layout. The pairs are tested as Listed, and written from the lists, which
// scribe's Project holds: a run of a job's successors is a slice of one of them.
pub fn write_patterson(
    cap: u32,
    dur: &[u32],
    dem: &[u32],
    jobs: &[u32],
    successors: &[u32],
    buffer: &mut [u8],
) -> Result<usize, Refusal>
    ensures { Writes
        (record { cap = cap; dur = dur.now; dem = dem.now; jobs = jobs.now; successors = successors.now; buffer = buffer.old })
        (record { says = says_write result; buffer = buffer.new }) }
{
    screen::refusal_of_two(dur, dem, cap)?;
    let Some(pairs) = Listed::new(jobs, successors) else {
        return Err(Refusal::Lengths);
    };
    let n = dur.len() as u32;
    if !pairs.rising(n) {
        return Err(Refusal::Pairs);
    }
    if pairs.has_cycle(n) {
        return Err(Refusal::Cycle);
    }
    let project = Project {
        cap,
        dur,
        dem,
        jobs,
        successors,
    };
    scribe::write(&project, buffer).ok_or(Refusal::Buffer)
}
