// The marks of a clash log (document 02, Item 14): the walk back from its closing record. Whether the records are good is not looked at here.
#![tactic(auto)]

ghost use Rattle.std.specs.Prelude.{◌≡◌, ◌≤◌, ◌<◌};
ghost use Rattle.answers.specs.Said.{says_conflict};
ghost use Rattle.joblist.specs.Limits.{most_jobs};
ghost use Rattle.journal.specs.Journal.{room_of};
ghost use Rattle.conflicts.specs.Table.{blame, marks_of, marking};

use answers::Conflict;

// The marks of the walk back over so many records, from the last one to the first: the job of the clash, and the members of each record whose moved job is
// marked when the walk comes to it.
fn walk_back(log: &[u32], count: usize, job: usize) -> [u32; bits::WORDS]
    requires { (count ≤ room_of log.now) × (job < most_jobs) }
    ensures { result ≡ marks_of log.now count job }
{
    let mut set = bits::empty();
    bits::put(&mut set, job);
    for k in (0..count).rev() {
        let words = logs::show_record(log, k);
        if bits::has(&set, words[logs::JOB_WORD] as usize) {
            bits::join(&mut set, logs::set_of(words));
        }
    }
    set
}

// The marks and how many they are, in the form of the call that gives them on, `tracer::conflict`: so the clause is `marking`, the table's row of a clash.
// The answer is always Ok: who has a clash has passed what refuses.
pub fn marks(log: &[u32], count: usize, job: usize) -> Conflict
    requires { (count ≤ room_of log.now) × (job < most_jobs) }
    ensures { blame (says_conflict result.answer) result.set ≡ marking log.now count job }
{
    let set = walk_back(log, count, job);
    Conflict {
        answer: Ok(bits::count(&set)),
        set,
    }
}
