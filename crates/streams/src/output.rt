// Output that remembers its first error, so that what prints on the way needs no result of its own.
ghost use Rattle.std.specs.Prelude.{◌≡◌, IsOk, OnOk, OnErr, Ok};
ghost use Rattle.std.specs.Fmt.{decimal};
ghost use Rattle.std.specs.Io.KnownBytes.{Appends};

use std::io;
use std::io::Write;

// The writer, and how its writes ended so far. After an error nothing more is written.
#[derive(Drop)]
pub struct Output<W> {
    pub to: W,
    pub outcome: io::Result<()>,
}

impl<W: Write> Output<W> {
    pub fn new(to: W) -> Output<W>
        ensures writer { result.to ≡ to }
        ensures outcome { IsOk result.outcome }
    {
        Output {
            to,
            outcome: Ok(()),
        }
    }

    // Writes all of these bytes.
    pub fn text(&mut self, bytes: &[u8])
        ensures ok { OnOk self.new.outcome (IsOk self.old.outcome) }
        ensures written { OnOk self.new.outcome (Appends (W.contents self.old.to) (W.contents self.new.to) bytes.now) }
        ensures err { OnErr self.old.outcome (self.new ≡ self.old) }
    {
        if self.outcome.is_ok() {
            self.outcome = self.to.write_all(bytes);
        }
    }

    // Writes n in decimal.
    pub fn number(&mut self, n: u64)
        ensures ok { OnOk self.new.outcome (IsOk self.old.outcome) }
        ensures written { OnOk self.new.outcome (Appends (W.contents self.old.to) (W.contents self.new.to) (decimal n)) }
        ensures err { OnErr self.old.outcome (self.new ≡ self.old) }
    {
        if self.outcome.is_ok() {
            self.outcome = write!(self.to, "{n}");
        }
    }
}
