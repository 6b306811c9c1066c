// The reply to a line of input: the call that it asks for is made over the lists of the line, which stand packed in lent words and are changed there;
// what it says is shown in the sink, and behind it the lists that the call may change, as they are afterwards, the part that `record` shows, or the set that
// `conflict` gives (docs/ANSWERS.md has the form). A function for each kind of call. A count is at most 2^64 - 1, and a `usize` has 64 bits: `as` loses none.
use forms::Line;
use printing::Sink;
use requests::{Call, Layout, Request, Task};
use sayings::Saying;

// The first so many of the packed lists.
fn lists(sink: &mut Sink<'_, impl Print>, words: &[u32], k: usize) {
    let end = packed::start(words, k);
    sink.numbers(&words[..end]);
}

// Behind narrowing and the check the windows; behind narrowing also the log.
fn jobs(sink: &mut Sink<'_, impl Print>, task: Task, line: Line, words: &mut [u32]) {
    sink.show(jobcalls::narrow_or_check(words, task, line.first, line.long as usize));
    lists(sink, words, 2);
    if let Task::Narrow = task {
        sink.list(packed::list(words, 4));
    }
}

// Behind the read head's answer the windows.
fn head(sink: &mut Sink<'_, impl Print>, words: &mut [u32]) {
    sink.show(jobcalls::sequence(words));
    lists(sink, words, 2);
}

fn conflict(sink: &mut Sink<'_, impl Print>, line: Line, words: &[u32]) {
    let marks = jobcalls::conflict(words, line.first, line.long as usize);
    sink.show(marks.says);
    sink.list(&marks.set);
}

fn record(sink: &mut Sink<'_, impl Print>, line: Line, words: &[u32]) {
    sink.show(Saying::Record);
    sink.list(desk::show_record(packed::list(words, 0), line.long as usize));
}

// Behind a text that was to be read all lists of the project.
fn read(
    sink: &mut Sink<'_, impl Print>,
    layout: Layout,
    line: Line,
    words: &mut [u32],
    text: &[u8],
) {
    let task = projectcalls::Reading {
        layout,
        resource: line.first,
        horizon: line.second,
    };
    sink.show(projectcalls::read(words, task, text));
    lists(sink, words, 6);
}

fn write(sink: &mut Sink<'_, impl Print>, line: Line, words: &[u32], text: &mut [u8]) {
    sink.show(projectcalls::write(words, line.first, text));
    sink.list(text);
}

// The text is what the line has of bytes.
pub fn reply(
    sink: &mut Sink<'_, impl Print>,
    request: Request,
    words: &mut [u32],
    text: &mut [u8],
) {
    let line = request.line;
    match request.call {
        Call::Jobs(task) => jobs(sink, task, line, words),
        Call::Conflict => conflict(sink, line, words),
        Call::Record => record(sink, line, words),
        Call::Overload => sink.show(jobcalls::overload(words)),
        Call::Head => head(sink, words),
        Call::Read(layout) => read(sink, layout, line, words, text),
        Call::Write => write(sink, line, words, text),
    }
}
