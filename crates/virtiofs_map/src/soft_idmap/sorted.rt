//! The entries of a list of specifications, in the order of their first numbers.
ghost use Rattle.std.specs.Prelude.{◌≡◌, ◌↔◌, ◌≤◌, IfOk, IsTrue, All, AllPairs};
ghost use Rattle.virtiofs_map.specs.Mapping.{count_of};
ghost use Rattle.virtiofs_map.specs.RangeParts.{acting_entry, entries, AreSorted, AreRanges, Precedes, HasRoom};

use super::Direction;
use super::entry::{Entry, entry_of};
use crate::cmdline::IdMap;
use std::alloc::{AllocError, Allocator};

/// What a specification sets up in a direction, where that covers a number.
fn acting_entry(spec: IdMap, direction: Direction) -> Option<Entry>
    ensures { result ≡ acting_entry direction spec }
{
    let entry = entry_of(spec, direction)?;
    if entry.is_empty() { None } else { Some(entry) }
}

/// The entries of a direction that cover a number, in the order of the list.
fn entries<A: Allocator>(
    alloc: A,
    specs: &[IdMap],
    direction: Direction,
) -> Result<Vec<Entry, A>, AllocError>
    ensures { IfOk result (λ all. all.items ≡ entries specs.now direction) }
{
    let mut all = Vec::with_capacity(alloc, specs.len())?;
    for spec in specs {
        let Some(entry) = acting_entry(*spec, direction) else {
            continue;
        };
        all.push(entry)?;
    }
    Ok(all)
}

/// The entries of a direction that cover a number, in the order of their first numbers.
pub(crate) fn sorted_entries<A: Allocator>(
    alloc: A,
    specs: &[IdMap],
    direction: Direction,
) -> Result<Vec<Entry, A>, AllocError>
    ensures { IfOk result (λ sorted. AreSorted specs.now direction sorted.items) }
{
    let mut sorted = entries(alloc, specs, direction)?;
    sorted.sort_unstable_by_key(|entry| entry.first());
    Ok(sorted)
}

/// Whether no range of the entries is too long.
fn have_room(entries: &[Entry]) -> bool
    ensures { IsTrue result ↔ All HasRoom entries.now }
{
    entries
        .iter()
        .all(|entry| entry.has_source() && entry.has_target())
}

/// Whether each entry ends before the next one begins.
fn keep_apart(sorted: &[Entry]) -> bool
    ensures { IsTrue result ↔ AllPairs Precedes sorted.now }
{
    sorted.is_sorted_by(|one, next| one.precedes(*next))
}

/// Whether the entries are ranges of a map.
#[tactic(auto, using(crate::proofs::SortedLemmas::room_told))]
pub(crate) fn are_ranges(sorted: &[Entry]) -> bool
    requires { All (λ entry. 1 ≤ count_of entry) sorted.now }
    ensures { IsTrue result ↔ AreRanges sorted.now }
{
    have_room(sorted) && keep_apart(sorted)
}
