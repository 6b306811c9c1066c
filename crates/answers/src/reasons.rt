// Why a call is refused (documents 01 and 02, 'Answer table'), and why a record is bad (the codes there). `number_of` and `code_number` in specs/ give the
// paper's numbers.
ghost use Rattle.std.specs.Prelude.{◌≡◌};
ghost use Rattle.answers.specs.Said.{number_of, code_number};

// The rows of the refusals: lists of different lengths; too many jobs; a number above its limit; no room for the records; more records claimed than there are;
// a log that whole records do not fill; a log that ends in no clash. Of texts: no number; a number above its limit; a pair that is none of the jobs, or out of
// order; a cycle; a chain longer than the horizon; other headings; too short a buffer; no such resource; lists of other lengths.
#[derive(Clone, Copy, Debug, PartialEq, Eq)]
pub enum Refusal {
    Lengths,
    Jobs,
    Limit,
    Room,
    Claimed,
    Ragged,
    NoClash,
    NoNumber,
    AboveLimit,
    Pairs,
    Cycle,
    Horizon,
    Headings,
    Buffer,
    Resource,
    Lists,
}

impl From<Refusal> for u32 {
    ghost from_gives = { λ r n. n ≡ number_of r };

    fn from(refusal: Refusal) -> u32 {
        match refusal {
            Refusal::Lengths => 1,
            Refusal::Jobs => 2,
            Refusal::Limit => 3,
            Refusal::Room => 5,
            Refusal::Claimed => 6,
            Refusal::Ragged => 7,
            Refusal::NoClash => 8,
            Refusal::NoNumber => 30,
            Refusal::AboveLimit => 31,
            Refusal::Pairs => 32,
            Refusal::Cycle => 33,
            Refusal::Horizon => 34,
            Refusal::Headings => 35,
            Refusal::Buffer => 36,
            Refusal::Resource => 37,
            Refusal::Lists => 38,
        }
    }
}

// The codes: a record behind the one that closed a window; a job, side or time out of range; a job that cannot take part; a wrong count; demands that do not
// exceed the capacity; a stated fact that is not true; a change that tightens nothing; a spare member.
#[derive(Clone, Copy, Debug, PartialEq, Eq)]
pub enum Code {
    Closed,
    Range,
    Partners,
    Counted,
    Exceeds,
    Stated,
    Tightens,
    Lean,
}

impl From<Code> for u32 {
    ghost from_gives = { λ c n. n ≡ code_number c };

    fn from(code: Code) -> u32 {
        match code {
            Code::Closed => 20,
            Code::Range => 21,
            Code::Partners => 22,
            Code::Counted => 23,
            Code::Exceeds => 24,
            Code::Stated => 25,
            Code::Tightens => 26,
            Code::Lean => 27,
        }
    }
}
