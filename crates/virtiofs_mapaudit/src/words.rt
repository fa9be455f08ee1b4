//! Words that sentences have in common.

use std::alloc::{AllocError, Global};
use std::fmt;
use virtiofs_findings::finding::Finding;
use virtiofs_findings::ids::kind::IdKind;
use virtiofs_findings::setup::SetUp;
use virtiofs_id_audit::Span;

/// What is made, or that memory ran out.
pub(crate) type Made<T> = Result<T, AllocError>;

/// That something is done, or that memory ran out.
pub(crate) type Done = Made<()>;

/// The options of a guest, and who runs its daemon.
pub(crate) type Guest<'a> = virtiofs_findings::guest::Guest<'a, Global>;

/// What the options of a guest set up.
pub(crate) type Set = SetUp<Global>;

/// A finding.
pub(crate) type Found = Finding<Global>;

/// What stands before the item at a place of a list.
pub(crate) fn comma(place: usize) -> &'static str {
    if place == 0 { "" } else { ", " }
}

/// The same in a list of so many, whose last item stands behind `and`.
pub(crate) fn comma_or_and(place: usize, count: usize) -> &'static str {
    match count.saturating_sub(place) {
        1 if place > 0 => " and ",
        _ => comma(place),
    }
}

/// What belongs to users, or what belongs to groups.
pub(crate) fn of_kind<T: Copy>(kind: IdKind, users: T, groups: T) -> T {
    match kind {
        IdKind::Users => users,
        IdKind::Groups => groups,
    }
}

/// The word for one id of a kind.
pub(crate) fn one_of(kind: IdKind) -> &'static str {
    of_kind(kind, "user", "group")
}

/// The word for ids of a kind, which JSON has.
pub(crate) fn many_of(kind: IdKind) -> &'static str {
    of_kind(kind, "users", "groups")
}

/// The option of the daemon that translates ids of a kind.
pub(crate) fn translating(kind: IdKind) -> &'static str {
    of_kind(kind, "--translate-uid", "--translate-gid")
}

/// The option of the daemon that gives a range of ids of its namespace.
pub(crate) fn ranging(kind: IdKind) -> &'static str {
    of_kind(kind, "--uid-map", "--gid-map")
}

/// A place, counted from 0, in words: `first`, `second`, .. `21st`.
#[derive(Clone, Copy)]
pub(crate) struct Ordinal(pub(crate) usize);

impl fmt::Display for Ordinal {
    fn fmt<W: fmt::Write>(&self, f: &mut fmt::Formatter<W>) -> fmt::Result {
        let number = self.0.saturating_add(1);
        match (number, number % 100 / 10, number % 10) {
            (1, _, _) => f.write_str("first"),
            (2, _, _) => f.write_str("second"),
            (3, _, _) => f.write_str("third"),
            (_, 1, _) => write!(f, "{number}th"),
            (_, _, 1) => write!(f, "{number}st"),
            (_, _, 2) => write!(f, "{number}nd"),
            (_, _, 3) => write!(f, "{number}rd"),
            _ => write!(f, "{number}th"),
        }
    }
}

/// Ids that follow one another: `5`, or `7 to 9`.
#[derive(Clone, Copy)]
pub(crate) struct Ids {
    /// The first.
    pub(crate) first: u64,
    /// The last.
    pub(crate) last: u64,
}

impl Ids {
    /// Those from a first to a last one.
    pub(crate) fn new(first: u32, last: u32) -> Ids {
        let (first, last) = (u64::from(first), u64::from(last));
        Ids { first, last }
    }
}

impl fmt::Display for Ids {
    fn fmt<W: fmt::Write>(&self, f: &mut fmt::Formatter<W>) -> fmt::Result {
        let Ids { first, last } = *self;
        if first == last {
            return write!(f, "{first}");
        }
        write!(f, "{first} to {last}")
    }
}

/// How many spans, ranges or clauses a line tells at most.
pub(crate) const MOST: usize = 8;

/// Spans of ids, `5, 7 to 9`. Of many the first ones are told, and how many more there are.
#[derive(Clone, Copy)]
pub(crate) struct Spans<'a>(pub(crate) &'a [Span]);

impl fmt::Display for Spans<'_> {
    fn fmt<W: fmt::Write>(&self, f: &mut fmt::Formatter<W>) -> fmt::Result {
        for (place, span) in self.0.iter().take(MOST).enumerate() {
            let (comma, ids) = (comma(place), Ids::new(span.first, span.last));
            write!(f, "{comma}{ids}")?;
        }
        match self.0.len().saturating_sub(MOST) {
            0 => Ok(()),
            more => write!(f, " and {more} more ranges"),
        }
    }
}

/// Whether the spans are of a single id.
pub(crate) fn is_one(ids: &[Span]) -> bool {
    matches!(ids, [only] if only.first == only.last)
}

/// Ids of users or of groups, with the word for one of them or for many: `users 5, 7 to 9`.
#[derive(Clone, Copy)]
pub(crate) struct Extent<'a> {
    /// The word for one of them.
    pub(crate) one: &'static str,
    /// The ids.
    pub(crate) ids: &'a [Span],
}

impl fmt::Display for Extent<'_> {
    fn fmt<W: fmt::Write>(&self, f: &mut fmt::Formatter<W>) -> fmt::Result {
        let one = self.one;
        let end = if is_one(self.ids) { "" } else { "s" };
        let spans = Spans(self.ids);
        write!(f, "{one}{end} {spans}")
    }
}
