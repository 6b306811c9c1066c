// The layouts of project texts: what a text says by its layout, and its parser.
ghost use Rattle.std.specs.Prelude.{ℕ, List};
ghost use Rattle.texts.specs.Readings.{Read};
ghost use Rattle.projects.specs.Projects.{Project};
ghost use Rattle.parsing.specs.Parsed.{ParsedSays};

use answers::Refusal;
use parsing::Parsed;

pub trait Layout {
    ghost says: { List ℕ → Read Project };

    // A whole text.
    fn parse(text: &[u8], res: u32) -> Result<Parsed, Refusal>
        ensures { ParsedSays (says text.now) text.now res result };
}

pub struct Patterson;

impl Layout for Patterson {
    ghost use Rattle.projects.specs.Patterson.{patterson};

    ghost says = { patterson };

    fn parse(text: &[u8], res: u32) -> Result<Parsed, Refusal> {
        parsing::parse(text, res)
    }
}

pub struct Psplib;

impl Layout for Psplib {
    ghost use Rattle.psplib.specs.Psplib.{psplib};

    ghost says = { psplib };

    fn parse(text: &[u8], res: u32) -> Result<Parsed, Refusal> {
        sections::parse(text, res)
    }
}
