// The load of all jobs as it is lent: two lists, and what they keep.
ghost use Rattle.profile.specs.Steps.{Points};

use profile::Outline;

#[derive(Clone, Copy)]
pub struct Load<'a> {
    pub ts: &'a [u32],
    pub ld: &'a [u32],
    pub kept: Outline,
    ghost points: { Points ts.now ld.now kept.m },
}
