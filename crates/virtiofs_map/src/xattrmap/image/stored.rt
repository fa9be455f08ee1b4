//! Rules as rows of bytes, as they are read.

ghost use Rattle.std.specs.Option.{option_map};
ghost use Rattle.std.specs.Prelude.{◌≡◌, ◌/◌, ◌<◌, ◌≤◌, IfNone, IfSome, List, Some, length, slice_get};
ghost use Rattle.virtiofs_map.specs.NamesImage.{AreRuleRows, IsImage, row_at, span_of};
ghost use Rattle.virtiofs_map.specs.Rule.{MappingRule};
ghost use Rattle.virtiofs_map.specs.RuleParts.{rule_meant};

use crate::xattrmap::image::header::{HEADER, part_start};
use crate::xattrmap::le_u64::le_u64_at;
use crate::xattrmap::rules::{RuleKind, RuleRef};
use crate::xattrmap::scopes::Scope;
use crate::xattrmap::spans::Span;
use crate::xattrmap::trie::ROW;
use bitflags::Flags;

/// Where two numbers share eight bytes, the second is multiplied by this.
pub(crate) const SHARE: u64 = 281474976710656;

/// The row at a place.
pub(crate) fn row_at(rows: &[u8], at: usize) -> Option<&[u8]>
    ensures here { IfSome result (λ row.
        (at < length rows.now / 24) × (row.now ≡ row_at rows.now at)) }
    ensures long { IfSome result (λ row. length row.now ≡ 24) }
    ensures past { IfNone result (length rows.now / 24 ≤ at) }
{
    if at < rows.len() / ROW {
        Some(&rows[at * ROW..at * ROW + ROW])
    } else {
        None
    }
}

/// Where the patterns of the rule of a row stand.
pub(crate) fn span_of(row: &[u8]) -> Span
    requires { length row.now ≡ 24 }
    ensures { result ≡ span_of row.now }
{
    Span {
        key: (le_u64_at(row, 0) % SHARE) as usize,
        prepend: le_u64_at(row, 8) as usize,
        end: le_u64_at(row, 16) as usize,
    }
}

/// The rule at a place; `None` where there is none, or where its patterns are not among the bytes.
pub(crate) fn read_rule<'a>(rows: &[u8], bytes: &'a [u8], at: usize) -> Option<RuleRef<'a>>
    ensures { (rules : List MappingRule) → AreRuleRows rules rows.now bytes.now
        → option_map rule_meant result ≡ slice_get rules at }
{
    let row = row_at(rows, at)?;
    let Span { key, prepend, end } = span_of(row);
    if key > prepend || prepend > end || end > bytes.len() {
        return None;
    }
    let acts = le_u64_at(row, 0) / SHARE;
    Some(RuleRef {
        kind: RuleKind::numbered(acts % 4),
        scope: Scope::from_bits_retain((acts / 4 % 4) as u8),
        key: &bytes[key..prepend],
        prepend: &bytes[prepend..end],
    })
}

/// The prepend of the rule at a place of an image; `None` where it does not stand among the bytes.
// (three tests in all: a sum that wraps is refused as one that is too large is)
#[inline(always)]
pub(crate) fn prepend_at(image: &[u8], place: usize) -> Option<&[u8]>
    ensures { (rules : List MappingRule) (rule : MappingRule) → IsImage rules image.now
        → slice_get rules place ≡ Some rule
        → option_map (λ prepend. prepend.now) result ≡ Some rule.prepend }
{
    if image.len() < HEADER {
        return None;
    }
    let from = part_start(image, 2).wrapping_add(place.wrapping_mul(ROW));
    if from > image.len() - ROW {
        return None;
    }
    let row = &image[from..from + ROW];
    let bytes = part_start(image, 3);
    let prepend = bytes.wrapping_add(le_u64_at(row, 8) as usize);
    let end = bytes.wrapping_add(le_u64_at(row, 16) as usize);
    if prepend <= end && end <= image.len() {
        Some(&image[prepend..end])
    } else {
        None
    }
}
