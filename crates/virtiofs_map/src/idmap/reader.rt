//! The three numbers of a range, which are read alike for users and groups.
ghost use Rattle.std.specs.Prelude.{◌≡◌, ◌≢◌, [], ◌∷◌, length, IfSome, IfNone, IfOk, IfErr};
ghost use Rattle.std.specs.Str.{chars};
ghost use Rattle.virtiofs_map.specs.NamespaceText.{SaysNamespace, HasFields, HasNamespaceFault, namespace_fault_of};
ghost use Rattle.virtiofs_map.specs.Separator.{split_at_each};

use super::IdMapError;
use crate::text::{cut_at, is_alphanumeric, number};

/// What the text of a range says.
#[derive(Drop)]
pub(super) struct Range {
    pub(super) inside: u32,
    pub(super) outside: u32,
    pub(super) count: u32,
}

/// What stands between the delimiters.
#[derive(Drop)]
struct Fields<'a> {
    inside: &'a str,
    outside: &'a str,
    count: &'a str,
}

/// The delimiter of a text, and what stands between its first and its last one.
fn enclosed(text: &str) -> Result<(char, &str), IdMapError>
    ensures found { IfOk result (λ p. HasFields (chars text.now) (split_at_each p.0 (chars p.1.now))) }
    ensures refused { IfErr result (λ e.
        HasNamespaceFault (chars text.now) (namespace_fault_of e)) }
{
    let mut characters = text.chars();
    let Some(delimiter) = characters.next_back() else {
        return Err(IdMapError::IncompleteMap);
    };
    if is_alphanumeric(delimiter) {
        return Err(IdMapError::InvalidDelimiter);
    }
    if characters.next() != Some(delimiter) {
        return Err(IdMapError::InvalidDelimiter);
    }
    Ok((delimiter, characters.as_str()))
}

/// The fields of a text, where there are three.
#[tactic(auto, using(crate::proofs::NamespaceLemmas::fields))]
fn three_fields(delimiter: char, inner: &str) -> Option<Fields<'_>>
    ensures three { IfSome result (λ fields. split_at_each delimiter (chars inner.now)
        ≡ chars fields.inside.now ∷ chars fields.outside.now ∷ chars fields.count.now ∷ []) }
    ensures other { IfNone result (length (split_at_each delimiter (chars inner.now)) ≢ 3) }
{
    let (inside, rest) = cut_at(inner, delimiter)?;
    let (outside, count) = cut_at(rest, delimiter)?;
    match cut_at(count, delimiter) {
        None => Some(Fields {
            inside,
            outside,
            count,
        }),
        Some(_) => None,
    }
}

impl Range {
    /// Reads a range.
    #[tactic(auto, using(crate::proofs::NamespaceLemmas::parts))]
    pub(super) fn from_str(text: &str) -> Result<Range, IdMapError>
        ensures read { IfOk result (λ range.
            SaysNamespace (chars text.now) range.inside range.outside range.count) }
        ensures refused { IfErr result (λ e.
            HasNamespaceFault (chars text.now) (namespace_fault_of e)) }
    {
        let (delimiter, inner) = enclosed(text)?;
        let Some(fields) = three_fields(delimiter, inner) else {
            return Err(IdMapError::IncompleteMap);
        };
        let inside = number(fields.inside)?;
        let outside = number(fields.outside)?;
        let count = number(fields.count)?;
        Ok(Range {
            inside,
            outside,
            count,
        })
    }
}
