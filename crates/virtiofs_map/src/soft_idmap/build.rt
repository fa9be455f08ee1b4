//! The words of a map, made of a list of specifications, or the first fault of the list.
ghost use Rattle.std.specs.Prelude.{◌↔◌, ◌<◌, IfOk, IsTrue, MatchOption, MatchResult, length, take};
ghost use Rattle.virtiofs_map.specs.Build.{Accepted, Meet, MeetsEarlier, Fits, IsReached, HasFirstFault, build_fault_of};
ghost use Rattle.virtiofs_map.specs.Image.{IsImage};
ghost use Rattle.virtiofs_map.specs.RangeParts.{AreRangesBothWays, IsLongestAccepted};
ghost use Rattle.virtiofs_map.specs.Refusal.{OutOfMemoryOr};

use super::entry::{Entry, entry_of};
use super::sorted::{are_ranges, sorted_entries};
use super::write::write_words;
use super::{Direction, IdMapBuildError, RangeEnd};
use crate::cmdline::IdMap;
use std::alloc::{AllocError, Allocator};

/// Whether both specifications cover some number in that direction.
fn meet(spec: IdMap, other: IdMap, direction: Direction) -> bool
    ensures { IsTrue result ↔ Meet spec other direction }
{
    match (entry_of(spec, direction), entry_of(other, direction)) {
        (Some(entry), Some(other)) => entry.meets(other),
        _ => false,
    }
}

/// Whether one of the earlier specifications covers a number that this one covers too.
fn meets_earlier(earlier: &[IdMap], spec: IdMap, direction: Direction) -> bool
    ensures { IsTrue result ↔ MeetsEarlier earlier.now spec direction }
{
    for other in earlier {
        if meet(spec, *other, direction) {
            return true;
        }
    }
    false
}

/// Tests a specification in one direction, where the tests of the list come to it.
fn check_direction(
    specs: &[IdMap],
    spec: IdMap,
    index: usize,
    direction: Direction,
) -> Result<(), IdMapBuildError>
    requires within { index < length specs.now }
    requires reached { IsReached specs.now spec index direction }
    ensures { MatchResult result
        (λ _. Fits (take index specs.now) spec direction)
        (λ e. OutOfMemoryOr (build_fault_of e) (HasFirstFault specs.now)) }
{
    let Some(entry) = entry_of(spec, direction) else {
        return Ok(());
    };
    if !entry.has_source() {
        return Err(IdMapBuildError::RangeOverflow {
            spec,
            index,
            direction,
            range_end: RangeEnd::Source,
        });
    }
    if meets_earlier(&specs[..index], spec, direction) {
        return Err(IdMapBuildError::Intersects {
            spec,
            index,
            direction,
        });
    }
    if !entry.has_target() {
        return Err(IdMapBuildError::RangeOverflow {
            spec,
            index,
            direction,
            range_end: RangeEnd::Target,
        });
    }
    Ok(())
}

/// The ranges of both directions, in order; `None` where the list is not accepted.
fn ranges_of<A: Allocator + Copy>(
    alloc: A,
    specs: &[IdMap],
) -> Result<Option<(Vec<Entry, A>, Vec<Entry, A>)>, AllocError>
    ensures { IfOk result (λ o. MatchOption o (¬ Accepted specs.now)
        (λ both. AreRangesBothWays specs.now both.0.items both.1.items)) }
{
    let guests = sorted_entries(alloc, specs, Direction::GuestToHost)?;
    let hosts = sorted_entries(alloc, specs, Direction::HostToGuest)?;
    if !are_ranges(&guests) {
        return Ok(None);
    }
    if !are_ranges(&hosts) {
        return Ok(None);
    }
    Ok(Some((guests, hosts)))
}

/// The greatest `count` for which the first `count` specifications are accepted, where the whole
/// list is not.
///
/// It is found by halves: each test halves the part of the list in which it may lie.
fn longest_accepted<A: Allocator + Copy>(alloc: A, specs: &[IdMap]) -> Result<usize, AllocError>
    requires { ¬ Accepted specs.now }
    ensures { IfOk result (IsLongestAccepted specs.now) }
{
    let mut low = 0;
    let mut high = specs.len();
    while high - low > 1 {
        let middle = low + (high - low) / 2;
        match ranges_of(alloc, &specs[..middle])? {
            Some(_) => low = middle,
            None => high = middle,
        }
    }
    Ok(low)
}

/// The ranges of a list of specifications that is accepted, from guest to host and from host to
/// guest, in order; else the first fault of the list.
#[tactic(auto, using(crate::proofs::BuildLemmas::grown))]
pub(crate) fn accepted_ranges<A: Allocator + Copy>(
    alloc: A,
    specs: &[IdMap],
) -> Result<(Vec<Entry, A>, Vec<Entry, A>), IdMapBuildError>
    ensures { MatchResult result
        (λ both. AreRangesBothWays specs.now both.0.items both.1.items)
        (λ e. OutOfMemoryOr (build_fault_of e) (HasFirstFault specs.now)) }
{
    if let Some(both) = ranges_of(alloc, specs)? {
        return Ok(both);
    }
    let index = longest_accepted(alloc, specs)?;
    let spec = specs[index];
    check_direction(specs, spec, index, Direction::GuestToHost)?;
    check_direction(specs, spec, index, Direction::HostToGuest)?;
    unreachable!()
}

/// The words of a list of specifications that is accepted.
pub(crate) fn words_of<A: Allocator + Copy>(
    alloc: A,
    specs: &[IdMap],
) -> Result<Vec<u32, A>, IdMapBuildError>
    ensures { MatchResult result
        (λ words. IsImage specs.now words.items)
        (λ e. OutOfMemoryOr (build_fault_of e) (HasFirstFault specs.now)) }
{
    let (guests, hosts) = accepted_ranges(alloc, specs)?;
    let mut words = Vec::from_elem(alloc, 0, 4 + 4 * guests.len() + 4 * hosts.len())?;
    write_words(&mut words, &guests, &hosts);
    Ok(words)
}
