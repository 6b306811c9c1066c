// A good job list as it is lent: earliest starts, latest ends, durations, demands, and the capacity (document 01, 'Job lists').
ghost use Rattle.crowding.specs.Asked.{asked};
ghost use Rattle.timetable.specs.Table.{Good};

#[derive(Clone, Copy)]
pub struct JobList<'a> {
    pub est: &'a [u32],
    pub lct: &'a [u32],
    pub dur: &'a [u32],
    pub dem: &'a [u32],
    pub cap: u32,
    ghost good: { Good (asked est.now lct.now dur.now dem.now cap) },
}
