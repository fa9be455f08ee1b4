//! How a program ends, and its status.
ghost use Rattle.std.specs.Prelude.{◌≡◌, ◌↔◌, IsErrOf};
ghost use Rattle.virtiofs_output.specs.declared.outcome.AnswerFault.TheVariants.{OutOfMemory, Write};

use crate::tally::WriteFailed;
use std::alloc::{AllocError, AllocFailed};

/// What a program's words came to, once their whole text was written.
#[derive(Clone, Copy, Debug, PartialEq, Eq)]
pub enum Answered {
    /// The words were read and answered. If they ask `virtiofs_mapaudit` to audit guests, nothing was
    /// found that counts; with `--mend`, with the options that are written.
    Given,
    /// A configuration among the words was refused. A text says why, unless `--quiet` is one of them.
    Refused,
    /// The words are wrong.
    WrongWords,
    /// `virtiofs_mapaudit` found something that counts, and no configuration was refused.
    Found,
}

/// Why the words were not answered, or not in full.
#[derive(Clone, Copy, Debug, PartialEq, Eq)]
pub enum AnswerFault {
    /// A request for memory was refused before anything was written.
    OutOfMemory,
    /// A write or a flush failed. The end of the text may be lacking.
    Write,
}

impl From<AllocError> for AnswerFault {
    ghost from_gives = { λ _ fault. fault ≡ OutOfMemory };

    fn from(_error: AllocError) -> Self {
        AnswerFault::OutOfMemory
    }
}

impl<T: Drop> From<AllocFailed<T>> for AnswerFault {
    ghost from_gives = { λ _ fault. fault ≡ OutOfMemory };

    fn from(_error: AllocFailed<T>) -> Self {
        AnswerFault::OutOfMemory
    }
}

impl From<WriteFailed> for AnswerFault {
    ghost from_gives = { λ _ fault. fault ≡ Write };

    fn from(_error: WriteFailed) -> Self {
        AnswerFault::Write
    }
}

/// The exit status of a program that ends so: 0 given, 1 refused, 2 wrong words, 3 out of memory,
/// 4 a failed write, 5 found.
pub fn status(ended: Result<Answered, AnswerFault>) -> u8
    ensures given { (result ≡ 0) ↔ (ended ≡ Ok Answered.Given) }
    ensures refused { (result ≡ 1) ↔ (ended ≡ Ok Answered.Refused) }
    ensures wrong_words { (result ≡ 2) ↔ (ended ≡ Ok Answered.WrongWords) }
    ensures out_of_memory { (result ≡ 3) ↔ IsErrOf ended AnswerFault.OutOfMemory }
    ensures write { (result ≡ 4) ↔ IsErrOf ended AnswerFault.Write }
    ensures found { (result ≡ 5) ↔ (ended ≡ Ok Answered.Found) }
{
    match ended {
        Ok(Answered::Given) => 0,
        Ok(Answered::Refused) => 1,
        Ok(Answered::WrongWords) => 2,
        Ok(Answered::Found) => 5,
        Err(AnswerFault::OutOfMemory) => 3,
        Err(AnswerFault::Write) => 4,
    }
}
