// A project written as a text (document 01, 'Library layouts'; document 02, Item 13).
#![tactic(auto)]

mod jobs;
mod marks;
mod project;
mod sinks;

ghost use Rattle.std.specs.Prelude.{◌≡◌, false, ◌≤◌, length};
ghost use Rattle.projects.specs.Form.{project_text};
ghost use Rattle.scribe.specs.Writing.{Ran, OutcomeSays};
ghost use Rattle.scribe.specs.Said.{said_by};

use jobs::put_jobs;
use marks::put;
pub use project::Project;
use sinks::{Count, Pen, Sink};

// A project at the front of the buffer, where there is room for it: the number of bytes written. They are counted first.
pub fn write(project: &Project<'_>, buffer: &mut [u8]) -> Option<usize>
    ensures { OutcomeSays (said_by project.now) buffer.old buffer.new result }
{
    let mut count = Count { at: 0 };
    put_project(&mut count, project);
    let bytes = count.at;
    if buffer.len() < bytes {
        return None;
    }
    let mut pen = Pen { buffer, at: 0 };
    put_project(&mut pen, project);
    Some(pen.at)
}

// The project's bytes put into a sink from its start.
fn put_project<S: Sink>(sink: &mut S, project: &Project<'_>)
    requires start { (S.held sink.old).place ≡ 0 }
    requires successors_in_bounds { S.dry ≡ false → length (project_text (said_by project.now)) ≤ length (S.held sink.old).buffer }
    ensures ran { Ran S.dry (said_by project.now) (S.held sink.old).buffer (S.held sink.new).buffer (S.held sink.new).place }
    ensures same { (S.held sink.new).lent ≡ (S.held sink.old).lent }
{
    let Project { cap, dur, .. } = *project;
    put(sink, dur.len() as u32, b' ');
    put(sink, 1, b'\n');
    put(sink, cap, b'\n');
    put_jobs(sink, project);
}
