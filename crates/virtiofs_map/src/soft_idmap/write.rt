//! Writes the words of a map.
ghost use Rattle.std.specs.Prelude.{◌≡◌, ◌+◌, ◌*◌, ◌<◌, ◌≤◌, List, length, slice_index};
ghost use Rattle.virtiofs_map.specs.Build.{Accepted};
ghost use Rattle.virtiofs_map.specs.Image.{IsImage};
ghost use Rattle.virtiofs_map.specs.RangeParts.{AreRanges, AreRangesOf};
ghost use Rattle.virtiofs_map.specs.WordParts.{IsRow, AreFirstsBelow, AreRowsBelow, KeepsBefore, image_kind};
ghost use Rattle.virtiofs_map.specs.declared.cmdline.IdMap.{IdMap as Specification};
ghost use Rattle.virtiofs_map.specs.declared.soft_idmap.entry.Direction.TheVariants.{GuestToHost, HostToGuest};

use super::entry::Entry;
use super::row::{FAILS, MAPS, SQUASHES};

/// The first and the last word of every map of ids: the letters `ids` in the three upper bytes, and the version
/// of the layout in the lowest.
pub(crate) const KIND: u32 = 0x6964_7302;

/// Writes the first word, and how many ranges there are in each direction.
fn write_head(words: &mut [u32], guests: u32, hosts: u32)
    requires room { 3 ≤ length words.old }
    ensures kind { slice_index words.new 0 ≡ image_kind }
    ensures guests { slice_index words.new 1 ≡ guests }
    ensures hosts { slice_index words.new 2 ≡ hosts }
{
    words[0] = KIND;
    words[1] = guests;
    words[2] = hosts;
}

/// Writes a row.
fn write_row(words: &mut [u32], at: usize, entry: Entry)
    requires room { at + 3 ≤ length words.old }
    ensures row { IsRow (slice_index words.new at) (slice_index words.new (at + 1))
        (slice_index words.new (at + 2)) entry }
    ensures before { KeepsBefore at words.old words.new }
{
    let (count, to, kind) = match entry {
        Entry::Map { to, count, .. } => (count, to, MAPS),
        Entry::Squash { to, count, .. } => (count, to, SQUASHES),
        Entry::Fail { count, .. } => (count, 0, FAILS),
    };
    words[at] = count;
    words[at + 1] = to;
    words[at + 2] = kind;
}

/// Writes the rows of a direction.
fn write_rows(words: &mut [u32], start: usize, ranges: &[Entry])
    requires room { start + 3 * length ranges.now ≤ length words.old }
    ensures rows { AreRowsBelow words.new start ranges.now (length ranges.now) }
    ensures before { KeepsBefore start words.old words.new }
{
    for at in 0..ranges.len() {
        write_row(words, start + 3 * at, ranges[at]);
    }
}

/// Writes the first numbers of a direction.
fn write_firsts(words: &mut [u32], start: usize, ranges: &[Entry])
    requires room { start + length ranges.now ≤ length words.old }
    ensures firsts { AreFirstsBelow words.new start ranges.now (length ranges.now) }
    ensures before { KeepsBefore start words.old words.new }
{
    for at in 0..ranges.len() {
        words[start + at] = ranges[at].first();
    }
}

/// Writes the last word.
fn write_end(words: &mut [u32], at: usize)
    requires room { at < length words.old }
    ensures end { slice_index words.new at ≡ image_kind }
    ensures before { KeepsBefore at words.old words.new }
{
    words[at] = KIND;
}

/// Writes the image of the entries of both directions.
#[tactic(auto, using(crate::proofs::WordLemmas::few_ranges))]
pub(crate) fn write_words(words: &mut [u32], guests: &[Entry], hosts: &[Entry])
    requires guests { AreRanges guests.now }
    requires hosts { AreRanges hosts.now }
    requires room { 4 + 4 * length guests.now + 4 * length hosts.now ≤ length words.old }
    ensures { (specs : List Specification) → Accepted specs
        → AreRangesOf specs GuestToHost guests.now → AreRangesOf specs HostToGuest hosts.now
        → IsImage specs words.new }
{
    let rows = 3 + guests.len() + hosts.len();
    write_head(words, guests.len() as u32, hosts.len() as u32);
    write_firsts(words, 3, guests);
    write_firsts(words, 3 + guests.len(), hosts);
    write_rows(words, rows, guests);
    write_rows(words, rows + 3 * guests.len(), hosts);
    write_end(words, rows + 3 * guests.len() + 3 * hosts.len());
}
