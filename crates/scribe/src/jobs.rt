// The lines of the jobs. The pairs are passed over once: as they rise, those of a job stand side by side.
ghost use Rattle.std.specs.Prelude.{suc, ◌∷◌, ◌≤◌, map, length};
ghost use Rattle.projects.specs.Form.{line_of, job_lines};
ghost use Rattle.scribe.specs.Said.{said_by};
ghost use Rattle.scribe.specs.Says.{Takes, Sent, RunEnds, Marked, rest_of, OwnJobs};

use crate::Project;
use crate::marks::put;
use crate::sinks::Sink;

// The first place from i on whose job is not j. A loop over places, since RunEnds says where the run ends among all jobs; position, on the jobs from i on,
// would find a place less i, or none where the run goes to the end.
fn run_end(jobs: &[u32], j: u32, i: usize) -> usize
    requires { i ≤ length jobs.now }
    ensures { RunEnds jobs.now j i result }
{
    for k in i..jobs.len() {
        if jobs[k] != j {
            return k;
        }
    }
    jobs.len()
}

// The byte behind a number: a space where another one follows on the line, as one does from place i on up to place `to`.
fn mark_of(i: usize, to: usize) -> u8
    ensures { Marked i to result }
{
    if i < to { b' ' } else { b'\n' }
}

// The successors of a job, numbered from 1, up to the end of its line.
fn put_successors<S: Sink>(sink: &mut S, own: &[u32])
    requires { OwnJobs own.now × Takes S.dry (rest_of (map suc own.now)) (S.held sink.old) }
    ensures { Sent S.dry (rest_of (map suc own.now)) (S.held sink.old) (S.held sink.new) }
{
    for (i, successor) in own.iter().enumerate() {
        put(sink, *successor + 1, mark_of(i + 1, own.len()));
    }
}

// The line of a job with its own successors.
fn put_job<S: Sink>(sink: &mut S, d: u32, q: u32, own: &[u32])
    requires { OwnJobs own.now × Takes S.dry (line_of (d ∷ q ∷ length own.now ∷ map suc own.now)) (S.held sink.old) }
    ensures { Sent S.dry (line_of (d ∷ q ∷ length own.now ∷ map suc own.now)) (S.held sink.old) (S.held sink.new) }
{
    put(sink, d, b' ');
    put(sink, q, b' ');
    put(sink, own.len() as u32, mark_of(0, own.len()));
    put_successors(sink, own);
}

// A line for each job. By index, since a job is its place in two lists, and its number is what run_end looks for.
pub fn put_jobs<S: Sink>(sink: &mut S, project: &Project<'_>)
    requires { Takes S.dry (job_lines (said_by project.now).rows) (S.held sink.old) }
    ensures { Sent S.dry (job_lines (said_by project.now).rows) (S.held sink.old) (S.held sink.new) }
{
    let Project {
        dur,
        dem,
        jobs,
        successors,
        ..
    } = *project;
    let mut i = 0;
    for j in 0..dur.len() {
        let end = run_end(jobs, j as u32, i);
        put_job(sink, dur[j], dem[j], &successors[i..end]);
        i = end;
    }
}
