// The log of reasons (document 01, 'Log records'; document 02, Item 10): the record's layout, the room of a log, whether it is ragged, writing, clearing,
// and the call that shows one record.
#![tactic(auto)]

ghost use Rattle.std.specs.Prelude.{◌≡◌, not, length};
ghost use Rattle.journal.specs.Journal.{record_words, in_words, set_of_record, room_of, is_whole, record_at, rewritten, cleared};

// The places of the words before the member set: job, side, time, number of members.
pub const JOB_WORD: usize = 0;

pub const SIDE_WORD: usize = 1;

pub const TIME_WORD: usize = 2;

pub const COUNT_WORD: usize = 3;

// The number of those words.
pub const HEAD: usize = 4;

// The words of a record.
pub const RECORD: usize = HEAD + bits::WORDS;

// The whole records that a log can hold, whatever the remainder.
pub fn room(log: &[u32]) -> usize
    ensures { result ≡ room_of log.now }
{
    log.len() / RECORD
}

// Whether words are left over behind the whole records.
pub fn ragged(log: &[u32]) -> bool
    ensures { result ≡ not (is_whole log.now) }
{
    log.len() % RECORD != 0
}

// Record k as a part of the caller's own log; an empty part where the log ends before it.
// k is compared before it is multiplied, so that no k wraps.
pub fn show_record(log: &[u32], k: usize) -> &[u32]
    ensures { result.now ≡ record_at log.now k }
{
    if k < room(log) {
        let from = RECORD * k;
        &log[from..from + RECORD]
    } else {
        &log[..0]
    }
}

// The member set of a record.
pub fn set_of(words: &[u32]) -> &[u32]
    requires { length words.now ≡ record_words }
    ensures { result.now ≡ set_of_record words.now }
{
    &words[HEAD..]
}

// Record k written anew, the rest as before; nothing is written where the log ends before it. The layout is of words: a side is its number
// here, as (01, 'Log records') has it; what a side is, `windows` knows, above this crate.
pub fn write(log: &mut [u32], k: usize, job: u32, side: u32, time: u32, set: [u32; bits::WORDS])
    ensures { log.new ≡ rewritten log.old k (in_words job side time set) }
{
    if room(log) <= k {
        return;
    }
    let at = RECORD * k;
    let to = at + HEAD;
    log[at..to].copy_from_slice(&[job, side, time, bits::count(&set)]);
    log[to..to + bits::WORDS].copy_from_slice(&set);
}

// Every word 0.
pub fn clear(log: &mut [u32])
    ensures { log.new ≡ cleared log.old }
{
    log.fill(0);
}
