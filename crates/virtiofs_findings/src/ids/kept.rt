//! The ids of a guest that no specification covers, and that keep their number.
ghost use Rattle.std.specs.Prelude.{◌≡◌, ◌↔◌, ℕ, IfOk, IsTrue, map};
ghost use Rattle.virtiofs_id_audit.specs.IdAudit.{Hold};
ghost use Rattle.virtiofs_findings.specs.IdFindings.{AreMapped, FindsKept};
ghost use Rattle.virtiofs_findings.specs.FindingParts.{cover_of, same_of, IsUncovered, IsSame};

use super::audits::ids_to;
use super::found::IdsFound;
use crate::setup::IdSetUp;
use std::alloc::{AllocError, Allocator};
use virtiofs_id_audit::Span;
use virtiofs_id_audit::namespace::ids_of_none;
use virtiofs_id_audit::outside::{Way, moved_all};
use virtiofs_map::cmdline::IdMap as Spec;
use virtiofs_map::idmap::UidMap;
use virtiofs_map::soft_idmap::{Direction, Entry, IdMap, entry_of};

/// These ids, as a range that keeps numbers.
fn range_of(first: u32, count: u32) -> UidMap
    ensures { result ≡ record { inside_uid = first; outside_uid = first; count = count } }
{
    UidMap {
        inside_uid: first,
        outside_uid: first,
        count,
    }
}

/// The ids of the guest that a specification covers.
fn cover_of(spec: &Spec) -> UidMap
    ensures { result ≡ cover_of spec.now }
{
    match entry_of(*spec, Direction::GuestToHost) {
        Some(
            Entry::Map { first, count, .. }
            | Entry::Squash { first, count, .. }
            | Entry::Fail { first, count },
        ) => range_of(first, count),
        None => range_of(0, 0),
    }
}

/// The ids inside a range that are outside it the same.
fn same_of(range: &UidMap) -> UidMap
    ensures { result ≡ same_of range.now }
{
    if range.inside_uid == range.outside_uid {
        return range_of(range.inside_uid, range.count);
    }
    range_of(range.inside_uid, 0)
}

/// The ids of the guest that each specification covers.
fn covers_of<A: Allocator>(alloc: A, specs: &[Spec]) -> Result<Vec<UidMap, A>, AllocError>
    ensures { IfOk result (λ all. all.items ≡ map cover_of specs.now) }
{
    specs.iter().map(|spec| cover_of(spec)).collect(alloc)
}

/// The ids inside each range that are outside it the same.
fn sames_of<A: Allocator>(alloc: A, ranges: &[UidMap]) -> Result<Vec<UidMap, A>, AllocError>
    ensures { IfOk result (λ all. all.items ≡ map same_of ranges.now) }
{
    ranges.iter().map(|range| same_of(range)).collect(alloc)
}

/// The ids of the guest that no specification covers.
pub(crate) fn uncovered<A: Allocator + Copy>(
    alloc: A,
    specs: &[Spec],
) -> Result<Vec<Span, A>, AllocError>
    ensures { IfOk result (λ ids. (id : ℕ) → Hold ids.items id ↔ IsUncovered specs.now id) }
{
    let covers = covers_of(alloc, specs)?;
    ids_of_none(alloc, covers.as_slice())
}

/// Those of the ids inside the namespace of these ranges that are outside it the same.
pub(crate) fn same_among<A: Allocator + Copy>(
    alloc: A,
    ranges: &[UidMap],
    ids: &[Span],
) -> Result<Vec<Span, A>, AllocError>
    ensures { IfOk result (λ same. (id : ℕ) → Hold same.items id ↔ IsSame ranges.now ids.now id) }
{
    let same = sames_of(alloc, ranges)?;
    moved_all(alloc, Way::Outwards, same.as_slice(), ids)
}

/// Whether ids are mapped: some specification is given, and the namespace of these ranges has more ids
/// than one, which is the daemon's own.
pub(crate) fn are_mapped(specs: &[Spec], ranges: &[UidMap]) -> bool
    ensures { IsTrue result ↔ AreMapped specs.now ranges.now }
{
    !specs.is_empty() && !(ranges.len() == 1 && ranges[0].count == 1)
}

/// The ids of the guest that no specification covers and that are, outside the namespace, those of
/// the host of the same numbers; nothing where ids are not mapped.
pub fn kept_ids<A: Allocator + Copy>(
    alloc: A,
    set: &IdSetUp<A>,
) -> Result<Option<IdsFound<A>>, AllocError>
    ensures { IfOk result (FindsKept set.now.map set.now.ranges.items) }
{
    if !are_mapped(set.map.specs(), set.ranges.as_slice()) {
        return Ok(None);
    }
    let uncovered = uncovered(alloc, set.map.specs())?;
    let kept = same_among(alloc, set.ranges.as_slice(), uncovered.as_slice())?;
    let unmapped = IdMap::empty(alloc);
    ids_to(alloc, &unmapped, kept.as_slice())
}
