//! What a row of words makes of a number.
//!
//! A row is three words: how many numbers the range has, what the first of them becomes, and the
//! kind of the range. There are three kinds. A number's distance from the first one is added to
//! what the first becomes; or nothing is added to it; or the use of the number fails.
//!
//! Nothing here branches on the number that is asked for: a branch that is predicted wrongly costs
//! more than all of this arithmetic.
ghost use Rattle.std.specs.Prelude.{◌≡◌, ◌<◌, ◌≤◌};
ghost use Rattle.virtiofs_map.specs.Build.{HasTarget};
ghost use Rattle.virtiofs_map.specs.Mapping.{first_of};
ghost use Rattle.virtiofs_map.specs.RangeParts.{HasNumbers};
ghost use Rattle.virtiofs_map.specs.WordParts.{IsRow, SaysEntry};
ghost use Rattle.virtiofs_map.specs.declared.soft_idmap.entry.Entry.{Entry};

use super::entry::Entry;

/// The kind of a range that maps one to one: all of the distance is added.
pub(crate) const MAPS: u32 = u32::MAX;

/// The kind of a range that maps all its numbers to one: nothing is added.
pub(crate) const SQUASHES: u32 = 0;

/// The kind of a range whose numbers fail.
pub(crate) const FAILS: u32 = 1;

/// What the words of a map say of a number.
#[derive(Clone, Copy, Debug, PartialEq, Eq)]
pub enum Answer {
    /// The number becomes this one.
    Becomes(u32),
    /// The use of the number fails.
    Fails,
    /// The words are those of no map.
    NoImage,
}

/// 4294967295, which is 32 binary digits of 1, where `n` is below `other`; else 0.
pub(crate) fn ones_if_below(n: u64, other: u64) -> u64
    requires n { n < 4294967296 }
    requires other { other ≤ 4294967296 }
    ensures below { n < other → result ≡ 4294967295 }
    ensures above { other ≤ n → result ≡ 0 }
{
    n.wrapping_sub(other) / 4294967296
}

/// The range of a row that begins at `first`.
pub(crate) fn entry_of_row(first: u32, count: u32, to: u32, kind: u32) -> Entry
    ensures { (entry : Entry)
        → first ≡ first_of entry → IsRow count to kind entry → result ≡ entry }
{
    match kind {
        MAPS => Entry::Map { first, to, count },
        SQUASHES => Entry::Squash { first, to, count },
        _ => Entry::Fail { first, count },
    }
}

/// What a row makes of a number, where the range begins at `first`.
pub(crate) fn say(first: u32, count: u32, to: u32, kind: u32, n: u32) -> Answer
    ensures { (entry : Entry) → first ≡ first_of entry → IsRow count to kind entry
        → HasNumbers entry → HasTarget entry → SaysEntry entry n result }
{
    let above = n.wrapping_sub(first);
    let covers = ones_if_below(u64::from(above), u64::from(count)) as u32;
    if kind != MAPS && kind > FAILS {
        return Answer::NoImage;
    }
    if kind & covers == FAILS {
        return Answer::Fails;
    }
    let target = to.wrapping_add(above & kind);
    Answer::Becomes(n.wrapping_add(target.wrapping_sub(n) & covers))
}
