//! The user namespace that a daemon runs in: its ranges.
ghost use Rattle.std.specs.Prelude.{◌≡◌, ◌↔◌, ◌+◌, ◌-◌, ◌++◌, ◌<◌, ◌^◌, All, IfOk, IsTrue, OnOk, find, option_map};
ghost use Rattle.virtiofs_findings.specs.FindingParts.{AgreeAround};
ghost use Rattle.virtiofs_findings.specs.Ranges.{said_own, is_own, is_alone, shown_of, is_host, but_host, set_up_ranges, mapped_ranges, ranges_of, as_taken, taken, has, has_outside, some_has, some_has_outside, is_outside, if_some, below_overflow, above_overflow, but_overflow, acting_ranges, outside_of, AreSame, Differ};

use crate::explain::ids::OVERFLOW_ID;
use crate::ids::ranges::MOST_RANGES;
use std::alloc::{AllocError, Allocator};
use virtiofs_host::runner::Bounds;
use virtiofs_map::idmap::UidMap;

/// The id that a daemon runs as, if it is said.
pub(crate) fn said_own<A: Allocator>(bounds: Option<&Bounds<A>>) -> Option<u32>
    ensures { result ≡ said_own (option_map (λ it. it.now) bounds.entry) }
{
    match bounds {
        Some(bounds) => Some(bounds.own),
        None => None,
    }
}

/// Whether a daemon can act as the id that it runs as alone, where no namespace has others.
fn is_alone<A: Allocator>(bounds: Option<&Bounds<A>>) -> bool
    ensures { result ≡ is_alone (option_map (λ it. it.now) bounds.entry) }
{
    match bounds {
        Some(bounds) => bounds.is_alone,
        None => false,
    }
}

/// The ranges that the kernel shows, if it shows any.
fn shown_of<'b, A: Allocator>(bounds: Option<&'b Bounds<A>>) -> Option<&'b [UidMap]>
    ensures { option_map (λ it. it.now) result
        ≡ shown_of (option_map (λ it. it.now) bounds.entry) }
{
    let bounds = bounds?;
    match &bounds.shown {
        Some(shown) => Some(shown.as_slice()),
        None => None,
    }
}

/// Whether a range has each id of the host, under its number.
fn is_host(range: &UidMap) -> bool
    ensures { result ≡ is_host range.now }
{
    range.inside_uid == 0 && range.outside_uid == 0 && range.count == u32::MAX
}

/// Ranges as those of a namespace of the daemon's own: none where they are all ids of the host.
fn but_host(ranges: &[UidMap]) -> &[UidMap]
    ensures { result.now ≡ but_host ranges.now }
{
    match ranges {
        [range] if is_host(range) => &[],
        _ => ranges,
    }
}

/// The same ranges.
fn copied<A: Allocator>(alloc: A, ranges: &[UidMap]) -> Result<Vec<UidMap, A>, AllocError>
    ensures { IfOk result (λ all. all.items ≡ ranges.now) }
{
    let mut all = Vec::new(alloc);
    VecCloneMethods::extend_from_slice(&mut all, ranges)?;
    Ok(all)
}

/// The ranges of the options; where there are none, the id that the daemon runs as, if it acts as that alone.
fn set_up_ranges<A: Allocator>(
    alloc: A,
    own_alone: bool,
    own: u32,
    written: &[UidMap],
) -> Result<Vec<UidMap, A>, AllocError>
    ensures { IfOk result (λ ranges. ranges.items ≡ set_up_ranges own_alone own written.now) }
{
    if !written.is_empty() || !own_alone {
        return copied(alloc, written);
    }
    let alone = UidMap {
        inside_uid: own,
        outside_uid: own,
        count: 1,
    };
    let mut ranges = Vec::new(alloc);
    ranges.push(alone)?;
    Ok(ranges)
}

/// Whether a daemon runs as that id, as far as is said.
fn is_own(own: Option<u32>, id: u32) -> bool
    ensures { result ≡ is_own own id }
{
    match own {
        Some(own) => own == id,
        None => false,
    }
}

/// A range as virtiofsd takes it, if it is the only one: of one with the id that the daemon runs as, a COUNT
/// of 0 is one of 1.
fn as_taken(own: Option<u32>, range: &UidMap) -> UidMap
    ensures { result ≡ as_taken own range.now }
{
    let is_one = is_own(own, range.outside_uid) && range.count == 0;
    UidMap {
        inside_uid: range.inside_uid,
        outside_uid: range.outside_uid,
        count: if is_one { 1 } else { range.count },
    }
}

/// The ranges of the options as virtiofsd takes them.
pub(crate) fn taken<A: Allocator>(
    alloc: A,
    own: Option<u32>,
    written: &[UidMap],
) -> Result<Vec<UidMap, A>, AllocError>
    ensures { IfOk result (λ ranges. ranges.items ≡ taken own written.now) }
{
    let [range] = written else {
        return copied(alloc, written);
    };
    let mut ranges = Vec::new(alloc);
    ranges.push(as_taken(own, range))?;
    Ok(ranges)
}

/// The ranges before 65534 is taken out: those that the kernel shows (of a process in the namespace of the
/// host that acts as one id alone: that id), or else those that the daemon sets up.
fn mapped_ranges<A: Allocator>(
    alloc: A,
    bounds: Option<&Bounds<A>>,
    own_alone: bool,
    written: &[UidMap],
) -> Result<Vec<UidMap, A>, AllocError>
    ensures { IfOk result (λ ranges. ranges.items
        ≡ mapped_ranges (option_map (λ it. it.now) bounds.entry) own_alone written.now) }
{
    let own = said_own(bounds).unwrap_or(0);
    match shown_of(bounds) {
        Some(shown) => set_up_ranges(alloc, is_alone(bounds), own, but_host(shown)),
        None => set_up_ranges(alloc, own_alone, own, written),
    }
}

/// Whether a range has an id inside.
pub(crate) fn has(range: &UidMap, id: u64) -> bool
    ensures { result ≡ has range.now id }
{
    let first = u64::from(range.inside_uid);
    first <= id && id < first + u64::from(range.count)
}

/// Whether a range has an id outside.
fn has_outside(range: &UidMap, id: u64) -> bool
    ensures { result ≡ has_outside range.now id }
{
    let first = u64::from(range.outside_uid);
    first <= id && id < first + u64::from(range.count)
}

/// Whether one of the ranges has an id inside.
fn some_has(ranges: &[UidMap], id: u64) -> bool
    ensures { result ≡ some_has ranges.now id }
{
    ranges.iter().any(|range| has(range, id))
}

/// The same, outside.
fn some_has_outside(ranges: &[UidMap], id: u64) -> bool
    ensures { result ≡ some_has_outside ranges.now id }
{
    ranges.iter().any(|range| has_outside(range, id))
}

/// Whether a daemon is none of the ids of ranges, as far as is said: neither 0, which it becomes where it
/// can, nor the id that it runs as. Linux then shows it its own id as 65534.
fn is_outside(own: Option<u32>, ranges: &[UidMap]) -> bool
    ensures { result ≡ is_outside own ranges.now }
{
    match own {
        Some(own) => !some_has(ranges, 0) && !some_has_outside(ranges, u64::from(own)),
        None => !some_has(ranges, 0),
    }
}

/// Adds a range, if it has an id.
fn push_if_some<A: Allocator>(ranges: &mut Vec<UidMap, A>, range: UidMap) -> Result<(), AllocError>
    ensures { OnOk result (ranges.new.items ≡ ranges.old.items ++ if_some range) }
{
    if range.count == 0 {
        return Ok(());
    }
    ranges.push(range)?;
    Ok(())
}

/// What a range has below 65534, which it has.
fn below_overflow(range: &UidMap) -> UidMap
    requires { IsTrue (has range.now 65534) }
    ensures { result ≡ below_overflow range.now }
{
    UidMap {
        inside_uid: range.inside_uid,
        outside_uid: range.outside_uid,
        count: OVERFLOW_ID - range.inside_uid,
    }
}

/// What it has above.
fn above_overflow(range: &UidMap) -> UidMap
    requires { IsTrue (has range.now 65534) }
    ensures { result ≡ above_overflow range.now }
{
    let skipped = OVERFLOW_ID - range.inside_uid + 1;
    UidMap {
        inside_uid: OVERFLOW_ID + 1,
        outside_uid: range.outside_uid.saturating_add(skipped),
        count: range.count - skipped,
    }
}

/// Adds a range without 65534. One of that id alone leaves a range, since a list of none means all ids of
/// the host.
fn push_but_overflow<A: Allocator>(
    ranges: &mut Vec<UidMap, A>,
    range: &UidMap,
) -> Result<(), AllocError>
    ensures { OnOk result (ranges.new.items ≡ ranges.old.items ++ but_overflow range.now) }
{
    if !has(range, u64::from(OVERFLOW_ID)) {
        ranges.push(range.clone()?)?;
        return Ok(());
    }
    ranges.push(below_overflow(range))?;
    push_if_some(ranges, above_overflow(range))?;
    Ok(())
}

/// The ranges by which a daemon can act as an id inside. Of one that is none of their
/// ids they lack 65534: virtiofsd takes it for its own, and changes nothing for it.
fn acting_ranges<A: Allocator>(
    alloc: A,
    own: Option<u32>,
    ranges: Vec<UidMap, A>,
) -> Result<Vec<UidMap, A>, AllocError>
    ensures { IfOk result (λ all. all.items ≡ acting_ranges own ranges.items) }
{
    if !is_outside(own, ranges.as_slice()) {
        return Ok(ranges);
    }
    let mut all = Vec::new(alloc);
    for range in ranges.as_slice() {
        push_but_overflow(&mut all, range)?;
    }
    Ok(all)
}

/// The ranges of the namespace that a daemon runs in.
pub(crate) fn ranges_of<A: Allocator + Copy>(
    alloc: A,
    bounds: Option<&Bounds<A>>,
    own_alone: bool,
    written: &[UidMap],
) -> Result<Vec<UidMap, A>, AllocError>
    ensures { IfOk result (λ ranges. ranges.items
        ≡ ranges_of (option_map (λ it. it.now) bounds.entry) own_alone written.now) }
{
    let all = mapped_ranges(alloc, bounds, own_alone, written)?;
    acting_ranges(alloc, said_own(bounds), all)
}

/// The first of the ranges that has an id inside.
fn first_with(ranges: &[UidMap], id: u64) -> Option<&UidMap>
    ensures { option_map (λ it. it.now) result ≡ find (λ range. has range id) ranges.now }
{
    ranges.iter().find(|range| has(range, id))
}

/// What an id inside is outside, by a range with those first ids.
fn moved(inside: u32, outside: u32, id: u64) -> u64
    requires { id < 2 ^ 33 }
    ensures { result ≡ outside + (id - inside) }
{
    u64::from(outside) + id.saturating_sub(u64::from(inside))
}

/// The id outside of an id inside, by the first of the ranges that has it.
fn outside_of(ranges: &[UidMap], id: u64) -> Option<u64>
    requires { id < 2 ^ 33 }
    ensures { result ≡ outside_of ranges.now id }
{
    match first_with(ranges, id) {
        Some(range) => Some(moved(range.inside_uid, range.outside_uid, id)),
        None => None,
    }
}

/// Whether two lists of ranges lead an id inside to the same id outside, or both to none.
fn agree_at(shown: &[UidMap], written: &[UidMap], id: u64) -> bool
    requires { id < 2 ^ 33 }
    ensures { IsTrue result ↔ outside_of shown.now id ≡ outside_of written.now id }
{
    outside_of(shown, id) == outside_of(written, id)
}

/// Whether they agree at the first id of a range, and at the one behind its last.
fn agree_around(shown: &[UidMap], written: &[UidMap], range: &UidMap) -> bool
    ensures { IsTrue result ↔ AgreeAround shown.now written.now range.now }
{
    let first = u64::from(range.inside_uid);
    agree_at(shown, written, first) && agree_at(shown, written, first + u64::from(range.count))
}

/// Whether they agree around each of some ranges.
fn agree_around_all(shown: &[UidMap], written: &[UidMap], ranges: &[UidMap]) -> bool
    ensures { IsTrue result ↔ All (AgreeAround shown.now written.now) ranges.now }
{
    ranges
        .iter()
        .all(|range| agree_around(shown, written, range))
}

/// Whether the ranges of the options mean the same as those that the kernel shows. Between two ids around
/// which they agree, both go on alike.
fn are_same(shown: &[UidMap], written: &[UidMap]) -> bool
    ensures { IsTrue result ↔ AreSame shown.now written.now }
{
    if written.len() > MOST_RANGES {
        return false;
    }
    if !agree_around_all(shown, written, shown) {
        return false;
    }
    agree_around_all(shown, written, written)
}

/// Whether the kernel shows other ranges than those of the options, if there are any.
pub(crate) fn differ<A: Allocator>(bounds: Option<&Bounds<A>>, written: &[UidMap]) -> bool
    ensures { IsTrue result ↔ Differ (option_map (λ it. it.now) bounds.entry) written.now }
{
    if written.is_empty() {
        return false;
    }
    match shown_of(bounds) {
        Some(shown) => !are_same(shown, written),
        None => false,
    }
}
