//! The words of a map, and the one way to read a range of them.
//!
//! The first word says what the words are (`KIND` in `write.rt`), the second how many ranges there
//! are from guest to host, and the third how many from host to guest. Then come the first numbers
//! of the ranges from guest to host, in order, and of those from host to guest: a search reads
//! these alone. The rows of the ranges follow, in the same order (`row.rt`), and the first word
//! again: where zeros follow a part of the words, it is missing.
ghost use Rattle.std.specs.Prelude.{◌≡◌, ◌+◌, ◌<◌, ◌≤◌, List, slice_index, IfSome, IsNone, IsSome};
ghost use Rattle.virtiofs_map.specs.Build.{HasTarget};
ghost use Rattle.virtiofs_map.specs.Image.{IsImage, IsNoImage};
ghost use Rattle.virtiofs_map.specs.Mapping.{Becomes};
ghost use Rattle.virtiofs_map.specs.RangeParts.{HasNumbers};
ghost use Rattle.virtiofs_map.specs.Steps.{count_after};
ghost use Rattle.virtiofs_map.specs.WordParts.{Table, IsTable, IsAt, HasWords, words_lent, table_in, SaysEntry};
ghost use Rattle.virtiofs_map.specs.declared.cmdline.IdMap.{IdMap as Specification};
ghost use Rattle.virtiofs_map.specs.declared.soft_idmap.entry.Entry.{Entry};

use super::Direction;
use super::entry::Entry;
use super::lookup::look_up;
use super::row::{Answer, entry_of_row, ones_if_below, say};
use super::write::KIND;
use crate::Steps;
use std::marker::Model;

/// A map of ids that is lent as words: those of an [`IdMap`](super::IdMap), or words that
/// [`IdMapRef::of`] takes. In contracts it is its words.
#[derive(Drop)]
pub struct IdMapRef<'m> {
    words: &'m [u32],
}

impl<'m> Model for IdMapRef<'m> {
    ghost use Rattle.std.specs.Prelude.{List, ℕ};
    ghost use Rattle.virtiofs_map.specs.WordParts.{HasWords};

    ghost Value = { List ℕ };

    ghost view = { λ map. map.words.now };

    ghost invariant = { λ map. HasWords map.words.now };
}

/// The ranges of a direction, as they stand in words.
#[derive(Drop)]
pub(crate) struct Ranges<'a> {
    words: &'a [u32],
    firsts: usize,
    rows: usize,
    count: usize,
}

impl<'a> Model for Ranges<'a> {
    ghost use Rattle.virtiofs_map.specs.WordParts.{Table, IsTable};

    ghost Value = { Table };

    ghost view = { λ ranges. record {
      words = ranges.words.now;
      firsts = ranges.firsts;
      rows = ranges.rows;
      count = ranges.count;
    } };

    ghost invariant = { λ ranges. IsTable (record {
      words = ranges.words.now;
      firsts = ranges.firsts;
      rows = ranges.rows;
      count = ranges.count;
    }) };
}

/// A range that was read: its index, and its first number.
#[derive(Clone, Copy)]
pub(crate) struct Range {
    index: usize,
    first: u32,
}

/// The index of the last of the ranges that were read and begin at or below a number, or of the
/// first range.
#[derive(Clone, Copy)]
pub(crate) struct Last {
    index: usize,
}

/// The words of the map of no specification, which keeps none.
static NO_RANGES: [u32; 4] = [KIND, 0, 0, KIND];

impl<'m> IdMapRef<'m> {
    /// The map whose image the words are. `None` if they do not begin with the first word of an
    /// image of this version, or if it does not stand behind the ranges that they announce. Of other
    /// words that are no image, a map is made that may answer anything.
    pub fn of(words: &'m [u32]) -> Option<IdMapRef<'m>>
        ensures closed { IsNoImage words.now → IsNone result }
        ensures words { IfSome result (λ map. map ≡ words.now) }
        ensures image { (specs : List Specification) → IsImage specs words.now → IsSome result }
    {
        if words.len() < 3 || words[0] != KIND {
            return None;
        }
        let all = 4 + 4 * (words[1] as usize + words[2] as usize);
        if words.len() < all || words[all - 1] != KIND {
            return None;
        }
        Some(IdMapRef { words })
    }

    /// The words of a map that a list of specifications made.
    pub(crate) fn lent(words: &'m [u32]) -> IdMapRef<'m>
        requires { HasWords (words_lent words.now) }
        ensures { result ≡ words_lent words.now }
    {
        if words.is_empty() {
            return IdMapRef { words: &NO_RANGES };
        }
        IdMapRef { words }
    }

    /// What a number becomes in a direction; `None` where its use fails, or where the words are no
    /// image.
    #[inline(always)]
    #[tactic(auto, using(crate::proofs::WordLemmas::what_is_said))]
    pub fn becomes(&self, direction: Direction, n: u32) -> Option<u32>
        ensures { (specs : List Specification) → IsImage specs self.now
            → Becomes specs direction n result }
    {
        match look_up(&self.ranges(direction), n, &mut Steps::new()) {
            Answer::Becomes(value) => Some(value),
            Answer::Fails => None,
            Answer::NoImage => None,
        }
    }

    /// The ranges of a direction.
    pub(crate) fn ranges(&self, direction: Direction) -> Ranges<'m>
        ensures { result ≡ table_in self.now direction }
    {
        let words = self.words;
        let guests = words[1] as usize;
        let hosts = words[2] as usize;
        let rows = 3 + guests + hosts;
        match direction {
            Direction::GuestToHost => Ranges {
                words,
                firsts: 3,
                rows,
                count: guests,
            },
            Direction::HostToGuest => Ranges {
                words,
                firsts: 3 + guests,
                rows: rows + 3 * guests,
                count: hosts,
            },
        }
    }
}

impl<'a> Ranges<'a> {
    /// How many ranges there are.
    pub(crate) fn len(&self) -> usize
        ensures len { result ≡ self.now.count }
        ensures table { IsTable self.now }
    {
        self.count
    }

    /// Hands out a range, and counts a step.
    pub(crate) fn read(&self, at: usize, steps: &mut Steps) -> Range
        requires { at < self.now.count }
        ensures index { result.index ≡ at }
        ensures first { result.first ≡ slice_index self.now.words (self.now.firsts + at) }
        ensures counted { steps.new ≡ count_after steps.old 1 }
    {
        steps.tick();
        let first = self.words[self.firsts + at];
        Range { index: at, first }
    }

    /// The whole of a range, and counts a step.
    pub(crate) fn entry(&self, at: usize, steps: &mut Steps) -> Entry
        requires { at < self.now.count }
        ensures { (range : Entry) → IsAt self.now at range → result ≡ range }
    {
        let range = self.read(at, steps);
        let row = self.rows + 3 * at;
        entry_of_row(
            range.first,
            self.words[row],
            self.words[row + 1],
            self.words[row + 2],
        )
    }

    /// What the range at the index makes of a number.
    pub(crate) fn answer_by(&self, last: Last, n: u32) -> Answer
        requires { last.index < self.now.count }
        ensures { (range : Entry) → IsAt self.now last.index range
            → HasNumbers range → HasTarget range → SaysEntry range n result }
    {
        let row = self.rows + 3 * last.index;
        let first = self.words[self.firsts + last.index];
        say(
            first,
            self.words[row],
            self.words[row + 1],
            self.words[row + 2],
            n,
        )
    }
}

impl Last {
    /// The index of the first range.
    pub(crate) fn first() -> Last
        ensures { result.index ≡ 0 }
    {
        Last { index: 0 }
    }

    /// The index.
    pub(crate) fn index(self) -> usize
        ensures { result ≡ self.index }
    {
        self.index
    }

    /// The index of the later range if it begins at or below the number, else this one. It is chosen
    /// without a branch.
    pub(crate) fn or(self, later: Range, n: u32) -> Last
        requires later { self.index ≤ later.index }
        requires near { later.index < self.index + 4294967296 }
        ensures begins { later.first ≤ n → result.index ≡ later.index }
        ensures above { n < later.first → result.index ≡ self.index }
        ensures within { result.index ≤ later.index }
    {
        let above = ones_if_below(u64::from(n), u64::from(later.first));
        let step = later.index - self.index;
        Last {
            index: later.index - (step & above as usize),
        }
    }
}
