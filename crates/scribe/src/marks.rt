// Numbers put into a sink, digit by digit.
ghost use Rattle.std.specs.Prelude.{[], ◌∷◌, ◌++◌};
ghost use Rattle.projects.specs.Form.{decimal};
ghost use Rattle.scribe.specs.Says.{Takes, Sent};

use crate::sinks::Sink;

// The decimal digits of v: those of v / 10 first, and then the last one. Each call has one digit less.
fn put_digits<S: Sink>(sink: &mut S, v: u32)
    requires { Takes S.dry (decimal v) (S.held sink.old) }
    ensures { Sent S.dry (decimal v) (S.held sink.old) (S.held sink.new) }
{
    if v < 10 {
        sink.store(b'0' + (v as u8));
    } else {
        put_digits(sink, v / 10);
        sink.store(b'0' + ((v % 10) as u8));
    }
}

// A number, and one byte behind it.
pub fn put<S: Sink>(sink: &mut S, v: u32, end: u8)
    requires { Takes S.dry (decimal v ++ end ∷ []) (S.held sink.old) }
    ensures { Sent S.dry (decimal v ++ end ∷ []) (S.held sink.old) (S.held sink.new) }
{
    put_digits(sink, v);
    sink.store(end);
}
