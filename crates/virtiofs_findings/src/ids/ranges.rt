//! What is wrong with the ranges of a daemon's namespace.
ghost use Rattle.std.specs.Prelude.{◌≡◌, ◌↔◌, ◌++◌, length, IfOk, IsTrue, MatchOption, OnOk, option_map, string_bytes};
ghost use Rattle.virtiofs_findings.specs.FindingParts.{MeetsNone, MeetsAs};
ghost use Rattle.virtiofs_findings.specs.Ranges.{MeetAt, IsBeyond, IsRefused, line_of, lines_of, IsAtFault, FindsFault};

use std::alloc::{AllocError, Allocator};
use virtiofs_host::allowed::is_allowed;
use virtiofs_host::runner::Bounds;
use virtiofs_map::idmap::UidMap;

/// What is wrong with a range. The daemon gets no namespace with such a range.
#[derive(Clone, Copy)]
pub enum RangeFault {
    /// It has no id.
    Empty,
    /// It reaches past 4294967294, inside or outside.
    Beyond,
    /// As many as Linux takes stand before it.
    TooMany,
    /// With its line the text of the ranges is longer than Linux takes.
    PastPage,
    /// Not all of its ids are the user's own, or given to the user by `/etc/subuid`.
    NotGiven,
    /// Inside the namespace it meets the earlier range of that place, counted from 0.
    MeetsInside(usize),
    /// Outside the namespace it meets that range.
    MeetsOutside(usize),
}

/// A range that is at fault.
#[derive(Clone, Copy)]
pub struct RangeFound {
    /// Its place, counted from 0.
    pub place: usize,
    /// What is wrong with it.
    pub fault: RangeFault,
}

/// Whether `count` ids from `first` on and `other_count` ids from `other` on have one in common.
fn meet(first: u32, count: u32, other: u32, other_count: u32) -> bool
    ensures { IsTrue result ↔ MeetAt first count other other_count }
{
    let end = u64::from(first) + u64::from(count);
    let other_end = u64::from(other) + u64::from(other_count);
    u64::from(first.max(other)) < end.min(other_end)
}

/// Whether a range reaches past the greatest id.
fn is_beyond(range: &UidMap) -> bool
    ensures { IsTrue result ↔ IsBeyond range.now }
{
    let greatest = u64::from(u32::MAX);
    u64::from(range.inside_uid) + u64::from(range.count) > greatest
        || u64::from(range.outside_uid) + u64::from(range.count) > greatest
}

/// The first of the ranges before a range that it meets, inside the namespace or outside.
fn meeting(before: &[UidMap], range: &UidMap) -> Option<RangeFault>
    ensures { MatchOption result (MeetsNone before.now range.now) (MeetsAs before.now range.now) }
{
    for place in 0..before.len() {
        let one = &before[place];
        if meet(range.inside_uid, range.count, one.inside_uid, one.count) {
            return Some(RangeFault::MeetsInside(place));
        }
        if meet(range.outside_uid, range.count, one.outside_uid, one.count) {
            return Some(RangeFault::MeetsOutside(place));
        }
    }
    None
}

/// The most ranges that Linux takes.
pub(crate) const MOST_RANGES: usize = 340;

/// Linux takes a text of ranges that is shorter than a page.
const PAGE: usize = 4096;

/// Whether `newuidmap` is asked for a range, and refuses it.
fn is_refused<A: Allocator>(bounds: Option<&Bounds<A>>, range: &UidMap) -> bool
    ensures { IsTrue result ↔ IsRefused (option_map (λ it. it.now) bounds.entry) range.now }
{
    let Some(bounds) = bounds else {
        return false;
    };
    match &bounds.given {
        Some(given) => !is_allowed(bounds.own, given.as_slice(), range),
        None => false,
    }
}

/// What is wrong with a range, before which those others stand. The lines of all of them are
/// `written` bytes.
fn fault_of<A: Allocator>(
    bounds: Option<&Bounds<A>>,
    before: &[UidMap],
    range: &UidMap,
    written: usize,
) -> Option<RangeFault>
    requires { written ≡ length (lines_of before.now ++ line_of range.now) }
    ensures { MatchOption result
        ((fault : RangeFault) → ¬ IsAtFault (option_map (λ it. it.now) bounds.entry)
        before.now range.now fault)
        (IsAtFault (option_map (λ it. it.now) bounds.entry) before.now range.now) }
{
    if range.count == 0 {
        return Some(RangeFault::Empty);
    }
    if is_beyond(range) {
        return Some(RangeFault::Beyond);
    }
    if before.len() >= MOST_RANGES {
        return Some(RangeFault::TooMany);
    }
    if written >= PAGE {
        return Some(RangeFault::PastPage);
    }
    if is_refused(bounds, range) {
        return Some(RangeFault::NotGiven);
    }
    meeting(before, range)
}

/// Writes a range as a line of `/proc/PID/uid_map` at the end of a text.
fn push_line<A: Allocator>(lines: &mut String<A>, range: &UidMap) -> Result<(), AllocError>
    ensures { OnOk result (string_bytes lines.new ≡ string_bytes lines.old ++ line_of range.now) }
{
    let (inside, outside, count) = (range.inside_uid, range.outside_uid, range.count);
    write!(lines, "{inside} {outside} {count}\n")
}

/// The first range that is at fault.
pub(crate) fn first_fault<A: Allocator>(
    alloc: A,
    bounds: Option<&Bounds<A>>,
    ranges: &[UidMap],
) -> Result<Option<RangeFound>, AllocError>
    ensures { IfOk result (FindsFault (option_map (λ it. it.now) bounds.entry) ranges.now) }
{
    let mut lines = String::new(alloc);
    for place in 0..ranges.len() {
        let range = &ranges[place];
        push_line(&mut lines, range)?;
        if let Some(fault) = fault_of(bounds, &ranges[..place], range, lines.as_bytes().len()) {
            return Ok(Some(RangeFound { place, fault }));
        }
    }
    Ok(None)
}
