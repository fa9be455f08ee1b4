//! What a text says of a range of a namespace.
ghost use Rattle.std.specs.Prelude.{IfOk, string_bytes};
ghost use Rattle.virtiofs_mapcheck.specs.NamespaceAnswer.{AnswersNamespace};

use std::alloc::{AllocError, Allocator};
use virtiofs_map::idmap::{IdMapError, UidMap};
use virtiofs_output::outcome::Answered;

/// The range that a text says, or what is wrong with the text.
pub(crate) fn answer_namespace<A: Allocator>(
    alloc: A,
    text: &str,
) -> Result<(Answered, String<A>), AllocError>
    ensures { IfOk result (λ p. AnswersNamespace text.now p.0 (string_bytes p.1)) }
{
    match UidMap::from_str(text) {
        Ok(map) => Ok((Answered::Given, format!(in alloc; "{map}\n")?)),
        Err(IdMapError::InvalidDelimiter) => {
            Ok((
                Answered::Refused,
                String::from_str(alloc, "refused: InvalidDelimiter\n")?,
            ))
        }
        Err(IdMapError::IncompleteMap) => {
            Ok((
                Answered::Refused,
                String::from_str(alloc, "refused: IncompleteMap\n")?,
            ))
        }
        Err(IdMapError::InvalidValue(_)) => {
            Ok((
                Answered::Refused,
                String::from_str(alloc, "refused: InvalidValue\n")?,
            ))
        }
    }
}
