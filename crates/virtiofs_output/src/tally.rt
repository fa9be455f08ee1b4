//! A writer that remembers whether a write or a flush failed, and whether it was flushed since.
ghost use Rattle.std.specs.Prelude.{◌≡◌, ◌↔◌, ◌<◌, ◌≤◌, length, take, IfOk, IsOk, IsTrue, IsFalse, OnOk, OnErr};
ghost use Rattle.std.specs.Io.KnownBytes.{Appends, Keeps};

use std::io::Write;
use std::marker::Model;

/// A writer, whether a write or a flush failed, and whether it was flushed since the last write.
///
/// A write fails where the writer answers a fault, an interruption included, or takes no byte of
/// a piece that has some. A flush fails where the writer answers a fault. Nothing else makes a
/// tally failed, and a failed one stays failed. A contract sees the bytes that the writer tells it
/// holds, whether the tally failed, and whether it was flushed.
#[derive(Drop)]
pub struct Tally<W: Write> {
    writer: W,
    has_failed: bool,
    is_flushed: bool,
}

impl<W: Write> Model for Tally<W> {
    ghost use Rattle.virtiofs_output.specs.Output.{Output};

    ghost Value = { Output };

    ghost view = { λ t. record {
      bytes = W.contents t.writer;
      failed = t.has_failed;
      flushed = t.is_flushed;
    } };
}

/// A write or a flush failed: the writer answered a fault, or took no byte of a piece that has
/// some.
#[derive(Clone, Copy, Debug, PartialEq, Eq)]
pub struct WriteFailed;

impl<W: Write> Tally<W> {
    /// A tally of what is written to `out` from here on. It has not failed, was not flushed, and
    /// takes no memory.
    pub fn new(out: W) -> Self
        ensures bytes { result.bytes ≡ W.contents out }
        ensures sound { IsFalse result.failed }
        ensures unflushed { IsFalse result.flushed }
    {
        Tally {
            writer: out,
            has_failed: false,
            is_flushed: false,
        }
    }

    /// Hands `piece` to the writer once, and answers how many of its first bytes were taken: at
    /// least one of a piece that has some. Where the write fails, nothing was taken, and the tally
    /// has failed from here on. Nothing may be written after that.
    pub(crate) fn write(&mut self, piece: &[u8]) -> Result<usize, WriteFailed>
        requires { IsFalse self.old.failed }
        ensures bound { IfOk result (λ n. n ≤ length piece.now) }
        ensures progress { IfOk result (λ n. 0 < length piece.now → 0 < n) }
        ensures taken { IfOk result (λ n.
            Appends self.old.bytes self.new.bytes (take n piece.now)) }
        ensures sound { OnOk result (IsFalse self.new.failed) }
        ensures kept { OnErr result (Keeps self.old.bytes self.new.bytes) }
        ensures fails { OnErr result (IsTrue self.new.failed) }
        ensures unflushed { IsFalse self.new.flushed }
    {
        self.is_flushed = false;
        match self.writer.write(piece) {
            Ok(taken) if taken > 0 || piece.is_empty() => Ok(taken),
            _ => {
                self.has_failed = true;
                Err(WriteFailed)
            }
        }
    }

    /// Flushes the writer: what it held back is written.
    ///
    /// # Errors
    ///
    /// `WriteFailed`: the writer answered a fault, and the tally has failed from here on.
    pub fn flush(&mut self) -> Result<(), WriteFailed>
        ensures kept { Keeps self.old.bytes self.new.bytes }
        ensures sound { OnOk result (self.new.failed ≡ self.old.failed) }
        ensures fails { OnErr result (IsTrue self.new.failed) }
        ensures flushed { IsOk result ↔ IsTrue self.new.flushed }
    {
        self.is_flushed = self.writer.flush().is_ok();
        self.has_failed |= !self.is_flushed;
        if self.is_flushed {
            Ok(())
        } else {
            Err(WriteFailed)
        }
    }
}
