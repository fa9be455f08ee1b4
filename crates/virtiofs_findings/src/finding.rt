//! What is found: facts about the options that may be mistakes.

use crate::ids::found::IdsFound;
use crate::ids::kind::IdKind;
use crate::ids::ranges::RangeFound;
use crate::names::acl::AclName;
use crate::names::found::LeastName;
use crate::setup::NoStart;
use std::alloc::Allocator;

/// Whom a finding is about. Guests are told by their numbers, counted from 1.
#[derive(Clone, Copy, PartialEq, Eq)]
pub enum About {
    /// One guest.
    Guest(usize),
    /// Two guests on one directory.
    Pair(usize, usize),
}

/// What a finding says. The program has a word and a sentence for each.
#[derive(Clone, Copy, PartialEq, Eq)]
pub enum Kind {
    /// `--posix-acl` stands beside a translation of ids: the daemon does not start.
    PosixAcl,
    /// Access control lists are on beside a translation of ids, by `-o posix_acl`: the ids in them are not
    /// translated.
    AclUntranslated,
    /// The daemon does not start as the user who runs it, or in its sandbox.
    NoStart,
    /// A range of the namespace is at fault: Linux takes no such namespace.
    Range,
    /// The kernel shows other ranges of users, or of groups, than those of the options.
    OtherRanges,
    /// Ids do not round-trip: each becomes an id of the host that leads back to another id of the
    /// guest.
    NotBack,
    /// Ids become ones that the namespace of the daemon lacks, as each lacks 4294967295.
    Lacking,
    /// No specification covers ids, and they are the ids of the host of the same numbers.
    Kept,
    /// Ids act as root of the host.
    Root,
    /// Some names are decided by no rule.
    NoRule,
    /// The guest can set a name that is not listed back.
    NotListed,
    /// A name of the host is listed under a name that leads elsewhere.
    ListedElsewhere,
    /// A written rule decides no name.
    IdleRule,
    /// Access control lists are on, and one of their names passes as another one.
    AclRenamed,
    /// Both guests reach the same ids of the host.
    IdOfBoth,
    /// The first guest can set a name that lists of the second then show.
    ShownToOther,
    /// By a name of the first guest, both reach one attribute of the host.
    NameOfBoth,
}

/// What a finding is told by.
#[derive(Drop)]
pub enum Evidence<A: Allocator> {
    /// There is no more to tell.
    Plain,
    /// Ids of users, or of groups.
    OfIds(IdKind),
    /// Why the daemon does not start.
    NoStart(NoStart),
    /// A range of the namespace, and what is wrong with it.
    Range(IdKind, RangeFound),
    /// Ids of the guest, or of the first of two.
    Ids {
        /// Whose ids they are.
        ids: IdKind,
        /// Whether some ids have other numbers in the daemon's namespace than outside. What the ids become is
        /// then inside it.
        in_namespace: bool,
        /// The ids, and what the least of them becomes.
        found: IdsFound<A>,
    },
    /// Ids of users, ids of groups, or both.
    BothIds(Option<IdsFound<A>>, Option<IdsFound<A>>),
    /// The least name.
    Name(LeastName<A>),
    /// The place of a written rule, counted from 0.
    Rule(usize),
    /// The name of an access control list, and the name as which it passes.
    Renamed(AclName, Vec<u8, A>),
}

/// A fact about the options of one guest, or of two, that may be a mistake.
#[derive(Drop)]
pub struct Finding<A: Allocator> {
    /// Whom it is about.
    pub about: About,
    /// What it says.
    pub kind: Kind,
    /// What it is told by.
    pub evidence: Evidence<A>,
}
