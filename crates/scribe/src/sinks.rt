// Where the bytes of a text go, one after the other: to the front of the lent buffer, or nowhere, where they are only counted.
ghost use Rattle.std.specs.Prelude.{Bool, [], ◌∷◌};
ghost use Rattle.scribe.specs.Says.{Held, Takes, Sent};

// A sink that is dry only counts.
pub trait Sink {
    ghost dry: { Bool };

    ghost held: { Self → Held };

    // One byte.
    fn store(&mut self, b: u8)
        requires { Takes dry (b ∷ []) (held self.old) }
        ensures { Sent dry (b ∷ []) (held self.old) (held self.new) };
}

// How many bytes there are.
#[derive(Drop)]
pub struct Count {
    pub at: usize,
}

impl Sink for Count {
    ghost use Rattle.std.specs.Prelude.{true, [], None};

    ghost dry = { true };

    ghost held = { λ s. record { place = s.at; buffer = []; lent = None } };

    fn store(&mut self, _b: u8) {
        self.at += 1;
    }
}

// A buffer, and the place in it that is written next.
#[derive(Drop)]
pub struct Pen<'a> {
    pub buffer: &'a mut [u8],
    pub at: usize,
}

impl<'a> Sink for Pen<'a> {
    ghost use Rattle.std.specs.Prelude.{false, Some};

    ghost dry = { false };

    ghost held = { λ s. record { place = s.at; buffer = s.buffer.now; lent = Some s.buffer.ghost_name } };

    fn store(&mut self, b: u8) {
        self.buffer[self.at] = b;
        self.at += 1;
    }
}
