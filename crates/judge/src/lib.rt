// The code of a record: the first test that it fails.
#![tactic(auto)]

ghost use Rattle.std.specs.Prelude.{◌≡◌, [], length};
ghost use Rattle.narrowing.specs.Windows.{win};
ghost use Rattle.answers.specs.Said.{coded};
ghost use Rattle.timetable.specs.Table.{call, Good};
ghost use Rattle.codes.specs.Codes.{code};
ghost use Rattle.exam.specs.Lent.{jobs_in};

use answers::Code;

// The lists and the capacity go from call to call as the desk lends them (01, 'Job lists'), here and in `replay`, `checker` and `tracer`, and `Good` is the one
// word for what is asked of them. `searches::JobList` is of the search, on which the checker does not stand; and it lends the windows to be read only, so that
// `replay`, which moves them between two records, would build it anew for each.

// Whether a record is good on the windows reached; else the code of the first test that it fails.
#[tactic(auto, using(crate::proofs::Chain::code_is))]
pub fn code_of(
    est: &[u32],
    lct: &[u32],
    dur: &[u32],
    dem: &[u32],
    cap: u32,
    words: &[u32; logs::RECORD],
) -> Result<(), Code>
    requires { Good (call (win est.now lct.now) dur.now dem.now cap []) }
    ensures { coded result ≡ code (jobs_in (length dur.now) dur.now dem.now cap) (win est.now lct.now) words.now }
{
    if !exam::in_range(dur.len(), words) {
        return Err(Code::Range);
    }
    if !exam::partners(dur, dem, words) {
        return Err(Code::Partners);
    }
    if !exam::counted(words) {
        return Err(Code::Counted);
    }
    if !draws::exceeds(dem, cap, words) {
        return Err(Code::Exceeds);
    }
    if !stated::stated_true(est, lct, dur, words) {
        return Err(Code::Stated);
    }
    if !exam::tightens(est, lct, words) {
        return Err(Code::Tightens);
    }
    if !draws::lean(dem, cap, words) {
        return Err(Code::Lean);
    }
    Ok(())
}
