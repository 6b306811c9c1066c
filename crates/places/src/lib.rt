// The places of a round (document 01, 'Order of work'): a job and its side, one after the other. Every loop that narrows walks them.
#![tactic(auto)]

ghost use Rattle.std.specs.Prelude.{◌≡◌, ◌<◌};
ghost use Rattle.places.specs.Places.{first_place, onward_of};

use windows::Side;

// A place of a round: a job, its side, and whether the round has moved a bound so far.
#[derive(Clone, Copy, Debug, PartialEq, Eq)]
pub struct Place {
    pub job: usize,
    pub side: Side,
    pub changed: bool,
}

impl Place {
    // The first job's side 0, with nothing changed yet.
    pub fn first() -> Place
        ensures { result ≡ first_place }
    {
        Place {
            job: 0,
            side: Side::Start,
            changed: false,
        }
    }

    // The place after one that rests: side 1 after side 0, the next job's side 0 after side 1. After the last one comes a new round, or the
    // place past all jobs where the round has changed nothing: it ends the rounds as an index past the last one ends a list, and no loop needs an Option for it.
    pub fn onward(self, n: usize) -> Place
        requires { self.job < n }
        ensures { result ≡ onward_of self n }
    {
        if self.side == Side::Start {
            Place {
                side: Side::End,
                ..self
            }
        } else if self.job + 1 < n {
            Place {
                job: self.job + 1,
                side: Side::Start,
                ..self
            }
        } else if self.changed {
            Place::first()
        } else {
            Place {
                job: n,
                side: Side::Start,
                ..self
            }
        }
    }
}
