// Writes the runs on the record (document 01, 'Runs on the record'), cases 1 to 13, a line for each run in the text's
// order: the case number, the answer word and its numbers, and for narrowing each job's earliest start and latest
// end, then the words of the counted records.
#![tactic(auto)]

mod run;

use logs::RECORD;
use printing::Sink;
use run::{narrow_line, overload_line};

// The words of a record, and of a log where the text names no room.
const ONE: u32 = RECORD as u32;

const USUAL: u32 = run::USUAL as u32;

// A time and a capacity just above their limits.
const LATE: u32 = screen::MOST_TIME + 1;

const HEAVY: u32 = screen::MOST_DEMAND + 1;

// As many jobs as a list may have, and one more.
const FULL: usize = screen::MOST_JOBS;

const OVERFULL: usize = FULL + 1;

fn narrow_usual(sink: &mut Sink<'_, impl Print>, case: u64, cap: u32, jobs: &[[u32; 4]]) {
    narrow_line(sink, case, cap, jobs, USUAL);
}

fn cases_1_to_5(sink: &mut Sink<'_, impl Print>) {
    narrow_usual(sink, 1, 1, &[]);
    narrow_usual(sink, 2, 5, &[[2, 10, 3, 2], [2, 7, 3, 2], [2, 8, 4, 2]]);
    narrow_usual(sink, 3, 5, &[[2, 10, 3, 2], [5, 10, 3, 2], [4, 10, 4, 2]]);
    narrow_usual(sink, 4, 1, &[[0, 2, 2, 1], [0, 2, 2, 1]]);
    narrow_usual(sink, 5, 1, &[[0, 2, 2, 1], [2, 4, 2, 1]]);
}

fn cases_6_to_9(sink: &mut Sink<'_, impl Print>) {
    narrow_line(sink, 6, 1, &[[0, 3, 1, 2]], 3 * ONE);
    narrow_line(sink, 6, 1, &[[0, 3, 1, 2]], 2 * ONE);
    narrow_usual(sink, 7, 1, &[[0, 3, 2, 1], [0, 3, 2, 1]]);
    narrow_usual(sink, 7, 1, &[[0, 4, 2, 1], [0, 4, 2, 1]]);
    narrow_usual(sink, 8, 1, &[[1, 1, 0, 5]]);
    narrow_usual(sink, 9, 1, &[[3, 7, 4, 1]]);
    narrow_usual(sink, 9, 1, &[[3, 6, 4, 1]]);
}

fn cases_10_to_12(sink: &mut Sink<'_, impl Print>) {
    overload_line(sink, 10, &[[0, 4, 2], [0, 4, 2], [0, 4, 2]]);
    overload_line(sink, 10, &[[0, 4, 2], [0, 4, 2]]);
    overload_line(sink, 11, &[[0, 10, 1], [2, 5, 2], [2, 5, 2]]);
    overload_line(sink, 12, &[[8, 10, 1], [0, 3, 1]]);
}

// Jobs (0,1,0,0), as the lent list has them, but for the last one's latest end.
fn many_line(sink: &mut Sink<'_, impl Print>, jobs: &mut [[u32; 4]], last: u32) {
    if let Some(job) = jobs.last_mut() {
        job[1] = last;
    }
    narrow_usual(sink, 13, 1, jobs);
}

fn case_13(sink: &mut Sink<'_, impl Print>) {
    many_line(sink, &mut [[0, 1, 0, 0]; FULL], 1);
    many_line(sink, &mut [[0, 1, 0, 0]; OVERFULL], 1);
    many_line(sink, &mut [[0, 1, 0, 0]; OVERFULL], LATE);
    narrow_usual(sink, 13, 1, &[[0, screen::MOST_TIME, 1, 1]]);
    narrow_usual(sink, 13, 1, &[[0, LATE, 1, 1]]);
    narrow_usual(sink, 13, screen::MOST_DEMAND, &[]);
    narrow_usual(sink, 13, HEAVY, &[]);
}

fn main(rt: HostRuntime) {
    let mut sink = Sink::new(&rt);
    cases_1_to_5(&mut sink);
    cases_6_to_9(&mut sink);
    cases_10_to_12(&mut sink);
    case_13(&mut sink);
}
