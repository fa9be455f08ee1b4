//! What a specification sets up in one direction.
ghost use Rattle.std.specs.Prelude.{◌≡◌, ◌↔◌, ℕ, ◌+◌, ◌<◌, IsTrue};
ghost use Rattle.virtiofs_map.specs.Mapping.{entry_of, first_of, count_of, EntryCovers, target_of};
ghost use Rattle.virtiofs_map.specs.Build.{HasSource, HasTarget};
ghost use Rattle.virtiofs_map.specs.RangeParts.{precedes};

use crate::cmdline::IdMap;
use std::fmt;

/// The direction in which ids are mapped.
#[derive(Clone, Copy, Debug, PartialEq, Eq)]
pub enum Direction {
    /// Guest ids to host ids.
    GuestToHost,
    /// Host ids to guest ids.
    HostToGuest,
}

/// A range of numbers, and what becomes of them.
#[derive(Clone, Copy)]
pub enum Entry {
    /// The number `first + i` becomes `to + i`.
    Map { first: u32, to: u32, count: u32 },
    /// Each number becomes `to`.
    Squash { first: u32, to: u32, count: u32 },
    /// The use of each number fails.
    Fail { first: u32, count: u32 },
}

/// A range is printed by its first number and the end past its last.
impl fmt::Display for Entry {
    ghost use Rattle.std.specs.Prelude.{Some};
    ghost use Rattle.virtiofs_map.specs.Printed.{entry_text};

    ghost output = { λ entry. Some (entry_text entry) };

    fn fmt<W: fmt::Write>(&self, f: &mut fmt::Formatter<W>) -> fmt::Result {
        let end = self.end();
        match *self {
            Entry::Map { first, to, count } => {
                let to_end = u64::from(to) + u64::from(count);
                write!(f, "map [{first}, {end}) to [{to}, {to_end})")
            }
            Entry::Squash { first, to, .. } => write!(f, "squash [{first}, {end}) to {to}"),
            Entry::Fail { first, .. } => write!(f, "fail [{first}, {end})"),
        }
    }
}

/// What a specification sets up in a direction, where it acts on that direction.
pub fn entry_of(spec: IdMap, direction: Direction) -> Option<Entry>
    ensures { result ≡ entry_of spec direction }
{
    match direction {
        Direction::GuestToHost => match spec {
            IdMap::Guest {
                from_guest: first,
                to_host: to,
                count,
            } => Some(Entry::Map { first, to, count }),
            IdMap::SquashGuest {
                from_guest: first,
                to_host: to,
                count,
            } => Some(Entry::Squash { first, to, count }),
            IdMap::Bidirectional {
                guest: first,
                host: to,
                count,
            } => Some(Entry::Map { first, to, count }),
            IdMap::ForbidGuest {
                from_guest: first,
                count,
            } => Some(Entry::Fail { first, count }),
            _ => None,
        },
        Direction::HostToGuest => match spec {
            IdMap::Host {
                from_host: first,
                to_guest: to,
                count,
            } => Some(Entry::Map { first, to, count }),
            IdMap::SquashHost {
                from_host: first,
                to_guest: to,
                count,
            } => Some(Entry::Squash { first, to, count }),
            IdMap::Bidirectional {
                guest: to,
                host: first,
                count,
            } => Some(Entry::Map { first, to, count }),
            _ => None,
        },
    }
}

impl Entry {
    /// The first number of the range.
    pub fn first(self) -> u32
        ensures { result ≡ first_of self }
    {
        match self {
            Entry::Map { first, .. } | Entry::Squash { first, .. } | Entry::Fail { first, .. } =>
                first,
        }
    }

    /// How many numbers the range has.
    fn count(self) -> u32
        ensures { result ≡ count_of self }
    {
        match self {
            Entry::Map { count, .. } | Entry::Squash { count, .. } | Entry::Fail { count, .. } =>
                count,
        }
    }

    /// Whether the range has no number.
    pub fn is_empty(self) -> bool
        ensures { IsTrue result ↔ (count_of self ≡ 0) }
    {
        self.count() == 0
    }

    /// The end of the range, past its last number.
    pub fn end(self) -> u64
        ensures end { result ≡ first_of self + count_of self }
    {
        u64::from(self.first()) + u64::from(self.count())
    }

    /// Whether the entry covers a number.
    pub(crate) fn covers(self, n: u32) -> bool
        ensures { IsTrue result ↔ EntryCovers self n }
    {
        self.first() <= n && u64::from(n) < self.end()
    }

    /// Whether some number is covered by both entries.
    pub(crate) fn meets(self, other: Entry) -> bool
        ensures { IsTrue result ↔ ((n : ℕ) × EntryCovers self n × EntryCovers other n) }
    {
        let first = self.first().max(other.first());
        let end = self.end().min(other.end());
        u64::from(first) < end
    }

    /// Whether the entry ends before the other one begins.
    pub(crate) fn precedes(self, other: Entry) -> bool
        ensures { result ≡ precedes self other }
    {
        self.end() <= u64::from(other.first())
    }

    /// Whether the end of the range is a number of 32 bits, or the range is empty.
    pub(crate) fn has_source(self) -> bool
        ensures { IsTrue result ↔ HasSource self }
    {
        self.count() == 0 || self.end() <= u64::from(u32::MAX)
    }

    /// Whether what the last number becomes is a number of 32 bits, or the range is empty.
    pub(crate) fn has_target(self) -> bool
        ensures { IsTrue result ↔ HasTarget self }
    {
        match self {
            Entry::Map { to, count, .. } => count == 0
                || u64::from(to) + u64::from(count - 1) <= u64::from(u32::MAX),
            _ => true,
        }
    }

    /// What a covered number becomes; `None` where its use fails.
    pub(crate) fn target(self, n: u32) -> Option<u32>
        requires covers { EntryCovers self n }
        requires fits { HasTarget self }
        ensures { result ≡ target_of self n }
    {
        match self {
            Entry::Map { first, to, .. } => Some(to + (n - first)),
            Entry::Squash { to, .. } => Some(to),
            Entry::Fail { .. } => None,
        }
    }
}
