//! Writing a whole text to a tally.
ghost use Rattle.std.specs.Prelude.{◌↔◌, IsTrue, IsFalse, IsErr, OnOk, OnErr};
ghost use Rattle.virtiofs_output.specs.Output.{Writes, WritesFrontOf};

use crate::tally::{Tally, WriteFailed};
use std::io::Write;

/// Writes `text`, by as many writes as it takes, and stops at the first that fails: nothing is
/// written after that. It takes no memory, and does not flush.
///
/// # Errors
///
/// `WriteFailed`: a write failed, and only then. What was written before is the beginning of
/// `text`, and lacks its end.
pub fn emit<W: Write>(text: &[u8], out: &mut Tally<W>) -> Result<(), WriteFailed>
    requires { IsFalse out.old.failed }
    ensures whole { OnOk result (Writes out.old out.new text.now) }
    ensures front { OnErr result (WritesFrontOf out.old out.new text.now) }
    ensures failed { IsErr result ↔ IsTrue out.new.failed }
{
    let mut rest = text;
    while !rest.is_empty() {
        let taken = out.write(rest)?;
        rest = &rest[taken..];
    }
    Ok(())
}
