ghost use Rattle.std.specs.Prelude.{◌≡◌, None, true, take, IfOk, OnErr};
ghost use Rattle.std.specs.Io.KnownBytes.{Appends};
ghost use Rattle.decl_outside.specs.Sink.{SinkState, Writes, AppendsFront};

use crate::{Failed, Sink};
use std::io::Write;

/// A standard stream. Nothing is told of what it holds.
#[derive(Drop)]
pub struct StdSink<W: Drop> {
    writer: W,
    faults: u64,
}

impl<W: Write + Drop> StdSink<W> {
    /// Nothing was written yet.
    pub fn new(writer: W) -> StdSink<W>
        ensures { ⟦<StdSink<W> as Sink>⟧.state result ≡ record { faults = 0; held = None; takes_any_length = true; room = 0 } }
    {
        StdSink { writer, faults: 0 }
    }
}

impl<W: Write + Drop> Sink for StdSink<W> {
    ghost state = { λ s. record { faults = s.faults; held = None; takes_any_length = true; room = 0 } };

    /// With `Ok` the writer has taken that many bytes, with `Failed` a prefix of the piece or nothing.
    fn write(&mut self, piece: &[u8]) -> Result<usize, Failed>
        ensures writes { Writes (⟦<StdSink<W> as Sink>⟧.state self.old) (⟦<StdSink<W> as Sink>⟧.state self.new) piece.now result }
        ensures taken { IfOk result (λ n. Appends (W.contents self.old.writer) (W.contents self.new.writer) (take n piece.now)) }
        ensures front { OnErr result (AppendsFront (W.contents self.old.writer) (W.contents self.new.writer) piece.now) }
    {
        match self.writer.write(piece) {
            Ok(count) if count > 0 && self.writer.flush().is_ok() => Ok(count),
            _ => {
                self.faults = self.faults.saturating_add(1);
                Err(Failed)
            }
        }
    }
}
