// What is written: a project of one resource in lists.
ghost use Rattle.std.specs.Prelude.{ℕ, ◌<◌};
ghost use Rattle.std.proofs.Props.{props};
ghost use Rattle.lists.specs.Lists.{◌!◌};
ghost use Rattle.scanner.specs.Scan.{held};
ghost use Rattle.scribe.specs.Writing.{Ready, in_order_prop};

// The pairs stand in their order, in two lists, as the caller lends them (document 01). That the numbers are of 32 bits is said since a proof that is lent
// this struct does not see the lists' types.
#[derive(Clone, Copy)]
pub struct Project<'a> {
    pub cap: u32,
    pub dur: &'a [u32],
    pub dem: &'a [u32],
    pub jobs: &'a [u32],
    pub successors: &'a [u32],
    ghost ready: { Ready dur.now dem.now jobs.now successors.now } by { Prim.hlevel (props, in_order_prop) },
    ghost words: { ((i : ℕ) → dur.now ! i < held) × ((i : ℕ) → dem.now ! i < held) },
}
