//! Texts of lines, of which some say a value and the others are passed over.
ghost use Rattle.std.specs.Prelude.{ℕ, List, IfSome, IfNone, IfOk};
ghost use Rattle.virtiofs_host.specs.Lines.{lines, AllSaid, FirstSaid};

use crate::cut::cut;
use std::alloc::{AllocError, Allocator};

/// What a line may say.
pub(crate) trait LineReader<'a> {
    /// What it says.
    type Value: Drop;

    ghost says: { Self → List ℕ → Self.Value → Type 0 };

    /// What a line says, if it says something.
    fn of_line(&self, line: &'a [u8]) -> Option<Self::Value>
        ensures says { IfSome result (says self.now line.now) }
        ensures none { IfNone result ((value : Self.Value) → ¬ says self.now line.now value) };
}

/// What the first line says that says something.
pub(crate) fn first_said<'a, R: LineReader<'a>>(reader: &R, text: &'a [u8]) -> Option<R::Value>
    ensures { FirstSaid (R.says reader.now) (lines text.now) result }
{
    let mut rest = Some(text);
    while let Some(text) = rest {
        let (line, after) = cut(text, b'\n');
        let value = reader.of_line(line);
        if value.is_some() {
            return value;
        }
        rest = after;
    }
    None
}

/// What the lines say, in their order.
///
/// # Errors
///
/// `AllocError`: a request for memory was refused.
pub(crate) fn all_said<'a, R: LineReader<'a>, A: Allocator>(
    alloc: A,
    reader: &R,
    text: &'a [u8],
) -> Result<Vec<R::Value, A>, AllocError>
    ensures { IfOk result (λ all. AllSaid (R.says reader.now) (lines text.now) all.items) }
{
    let mut all = Vec::new(alloc);
    let mut rest = Some(text);
    while let Some(text) = rest {
        let (line, after) = cut(text, b'\n');
        if let Some(value) = reader.of_line(line) {
            all.push(value)?;
        }
        rest = after;
    }
    Ok(all)
}
