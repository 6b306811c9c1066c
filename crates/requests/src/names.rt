// The calls' names, and the form of each one's line.
ghost use Rattle.std.specs.Prelude.{◌≡◌};
ghost use Rattle.requests.specs.Names.{Named, line_form, form_of};

use forms::{Form, Lists};

// The most entries of a list of jobs, the most words of a log, the most pairs, and the most bytes of a text or a buffer.
pub const JOBS: usize = 1200;

const LOG: u32 = 131072;

pub const PAIRS: usize = 70000;

pub const TEXT: usize = 524288;

// The most words that the lists of a line take: four of jobs and two of pairs, each behind its length; those with a log take fewer.
pub const WORDS: usize = 4 * (JOBS + 1) + 2 * (PAIRS + 1);

// The layout that a text is to be read in.
#[derive(Clone, Copy, Debug, PartialEq, Eq)]
pub enum Layout {
    Patterson,
    Psplib,
}

// What is asked of a job list and its log.
#[derive(Clone, Copy, Debug, PartialEq, Eq)]
pub enum Task {
    Narrow,
    Check,
}

#[derive(Clone, Copy, Debug, PartialEq, Eq)]
pub enum Call {
    Jobs(Task),
    Conflict,
    Record,
    Overload,
    Head,
    Read(Layout),
    Write,
}

impl Call {
    // The call of a name.
    pub fn named(word: &[u8]) -> Option<Call>
        ensures { Named word.now result }
    {
        // (Not `.ok()?`: the proof, `names_are_text`, takes from the Err why such a word is no name.)
        let Ok(name) = str::from_utf8(word) else {
            return None;
        };
        match name {
            "narrow" => Some(Call::Jobs(Task::Narrow)),
            "check" => Some(Call::Jobs(Task::Check)),
            "conflict" => Some(Call::Conflict),
            "record" => Some(Call::Record),
            "overload" => Some(Call::Overload),
            "head" => Some(Call::Head),
            "patterson" => Some(Call::Read(Layout::Patterson)),
            "psplib" => Some(Call::Read(Layout::Psplib)),
            "write" => Some(Call::Write),
            _ => None,
        }
    }

    // The form of its line.
    pub fn form(self) -> Form
        ensures { result ≡ form_of self }
    {
        match self {
            Call::Jobs(Task::Narrow) => formed(1, false, 4, 1, LOG, false),
            Call::Jobs(Task::Check) => formed(1, true, 4, 1, LOG, false),
            Call::Conflict => formed(1, true, 4, 1, LOG, false),
            Call::Record => formed(0, true, 0, 1, LOG, false),
            Call::Overload | Call::Head => formed(0, false, 3, 0, 0, false),
            Call::Read(_) => formed(2, false, 4, 2, PAIRS as u32, true),
            Call::Write => formed(1, false, 2, 2, PAIRS as u32, true),
        }
    }
}

// A line with so many numbers below 2^32, perhaps one below 2^64, lists of jobs, other lists and perhaps bytes.
fn formed(shorts: u32, long: bool, jobs: usize, others: usize, most: u32, bytes: bool) -> Form
    ensures { result ≡ line_form shorts long jobs others most bytes }
{
    let lists = Lists {
        count: jobs,
        most: JOBS as u32,
    };
    let more = Lists {
        count: others,
        most,
    };
    Form {
        shorts,
        long,
        lists,
        more,
        bytes,
    }
}
