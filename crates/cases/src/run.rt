// One run on the record (document 01, 'Runs on the record') to a line: the case number, the answer word and its numbers, and for narrowing each job's
// earliest start and latest end, then the words of the counted records.
//
// Jobs are given as the text writes them: e, l, p and, for narrowing, r. The call is made over packed lists, as `probe` makes it.
use packed::list;
use printing::Sink;
use requests::Task;
use sayings::Saying;

// The most jobs of a run: one more than a list may have.
const JOBS: usize = screen::MOST_JOBS + 1;

// The words of a log where the text names no room: eight records.
pub const USUAL: usize = 8 * logs::RECORD;

// The most words of a run's lists: four of jobs and such a log, each behind its length.
const WORDS: usize = 4 * (screen::MOST_JOBS + 2) + USUAL + 1;

// The lists of a call, packed in the first `at` words: an array, since there is no heap, and `at`, since no slice grows.
#[derive(Drop)]
struct Lists {
    words: [u32; WORDS],
    at: usize,
}

impl Lists {
    // For each entry of a job the list of it.
    fn of<const N: usize>(jobs: &[[u32; N]]) -> Lists {
        let mut lists = Lists {
            words: [0; WORDS],
            at: 0,
        };
        let jobs = &jobs[..jobs.len().min(JOBS)];
        for entry in 0..N {
            lists.put(jobs.len() as u32);
            for job in jobs {
                lists.put(job[entry]);
            }
        }
        lists
    }

    // One word more, where there is room.
    fn put(&mut self, x: u32) {
        if self.at < WORDS {
            self.words[self.at] = x;
            self.at += 1;
        }
    }
}

// Each job's earliest start and latest end.
fn windows(sink: &mut Sink<'_, impl Print>, est: &[u32], lct: &[u32]) {
    for (e, l) in est.iter().zip(lct) {
        sink.numbers(&[*e, *l]);
    }
}

// The records that narrowing counts; a refusal counts none.
fn counted(says: Saying) -> usize {
    match says {
        Saying::Settled(count) | Saying::Clash(count, _) => count,
        _ => 0,
    }
}

fn records(sink: &mut Sink<'_, impl Print>, log: &[u32], count: usize) {
    for k in 0..count {
        sink.numbers(desk::show_record(log, k));
    }
}

// The log has so many words.
pub fn narrow_line(
    sink: &mut Sink<'_, impl Print>,
    case: u64,
    cap: u32,
    jobs: &[[u32; 4]],
    log: u32,
) {
    let mut lists = Lists::of(jobs);
    lists.put(log);
    let says = jobcalls::narrow_or_check(&mut lists.words, Task::Narrow, cap, 0);
    let words = &lists.words;
    sink.show(format_args!("{case} {says}"));
    windows(sink, list(words, 0), list(words, 1));
    records(sink, list(words, 4), counted(says));
    sink.finish();
}

pub fn overload_line(sink: &mut Sink<'_, impl Print>, case: u64, jobs: &[[u32; 3]]) {
    let lists = Lists::of(jobs);
    let says = jobcalls::overload(&lists.words);
    sink.show(format_args!("{case} {says}"));
    sink.finish();
}
