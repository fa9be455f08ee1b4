//! The numbers from some number on that one range decides, or none.
ghost use Rattle.std.specs.Prelude.{◌≡◌, ◌+◌, ◌-◌, ◌≤◌, List, IfSome, IfNone};
ghost use Rattle.virtiofs_map.specs.Build.{HasTarget};
ghost use Rattle.virtiofs_map.specs.Mapping.{first_of, count_of, EntryCovers, target_of};
ghost use Rattle.virtiofs_map.specs.PieceParts.{AreOfSome, IsRead};
ghost use Rattle.virtiofs_map.specs.Pieces.{IsMade, IsStretch};
ghost use Rattle.virtiofs_map.specs.RangeParts.{HasNumbers};
ghost use Rattle.virtiofs_map.specs.WordParts.{IsAt, HasRanges};
ghost use Rattle.virtiofs_map.specs.declared.cmdline.IdMap.{IdMap as Specification};
ghost use Rattle.virtiofs_map.specs.declared.soft_idmap.entry.Direction.{Direction};
ghost use Rattle.virtiofs_map.specs.declared.soft_idmap.entry.Entry.{Entry};

use super::entry::Entry;
use super::lookup::last_from;
use super::piece::{Outcome, Piece};
use super::words::Ranges;
use crate::Steps;

/// The numbers from one that the range covers to the last of the range.
fn covered(range: Entry, n: u32) -> Piece
    requires covers { EntryCovers range n }
    requires numbers { HasNumbers range }
    requires target { HasTarget range }
    ensures { IsMade n (first_of range + count_of range - 1) (target_of range) result }
{
    let last = (range.end() - 1) as u32;
    match range {
        Entry::Map { first, to, .. } => Piece::one_to_one(n, last, to + (n - first)),
        Entry::Squash { to, .. } => Piece::all_to_one(n, last, to),
        Entry::Fail { .. } => Piece {
            first: n,
            last,
            becomes: Outcome::Forbidden,
        },
    }
}

/// Numbers that no range covers.
fn kept(first: u32, last: u32) -> Piece
    ensures { result ≡ record { first = first; last = last; becomes = Outcome.Kept } }
{
    Piece {
        first,
        last,
        becomes: Outcome::Kept,
    }
}

/// The numbers from `n` on up to the end of the range that covers it, or else up to the next range.
///
/// It takes as long as a lookup does.
pub(crate) fn stretch(ranges: &Ranges<'_>, n: u32) -> Piece
    requires { AreOfSome ranges.now }
    ensures first { result.first ≡ n }
    ensures stretch { (specs : List Specification) (direction : Direction)
        → HasRanges specs direction ranges.now → IsStretch specs direction result }
{
    if ranges.len() == 0 {
        return kept(n, u32::MAX);
    }
    let mut steps = Steps::new();
    let index = last_from(ranges, n, &mut steps).index();
    let range = ranges.entry(index, &mut steps);
    if range.covers(n) {
        return covered(range, n);
    }
    if n < range.first() {
        return kept(n, range.first() - 1);
    }
    if index + 1 < ranges.len() {
        let next = ranges.entry(index + 1, &mut steps).first();
        return kept(n, next - 1);
    }
    kept(n, u32::MAX)
}
