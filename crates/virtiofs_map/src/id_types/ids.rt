//! The ids of users and of groups, on both sides, and the distances between them.
//!
//! All ids have the same implementations: a side and a kind, which no value has, make them types of
//! their own.
ghost use Rattle.std.specs.Fmt.{decimal, styled_decimal};
ghost use Rattle.std.specs.Prelude.{◌≡◌, ℕ, ◌+◌, ◌-◌, ◌≤◌, Some};

use super::{GuestId, HostId, Id, IdOffset};
use std::fmt;
use std::marker::{Model, PhantomData};
use std::ops::{Add, Sub};

/// The id of a user in the guest, from 0 to 4294967295.
///
/// It is printed in decimal, and is 0 by default.
pub type GuestUid = IdOf<Guest, User>;

/// The id of a user on the host, from 0 to 4294967295.
///
/// It is printed in decimal, and is 0 by default.
pub type HostUid = IdOf<Host, User>;

/// The distance between two user ids of one side, from 0 to 4294967295.
///
/// A difference of two such ids is the only way to make one.
pub type UidOffset = OffsetOf<User>;

/// The id of a group in the guest, from 0 to 4294967295.
///
/// It is printed in decimal, and is 0 by default.
pub type GuestGid = IdOf<Guest, Group>;

/// The id of a group on the host, from 0 to 4294967295.
///
/// It is printed in decimal, and is 0 by default.
pub type HostGid = IdOf<Host, Group>;

/// The distance between two group ids of one side, from 0 to 4294967295.
///
/// A difference of two such ids is the only way to make one.
pub type GidOffset = OffsetOf<Group>;

/// Where an id is valid.
pub trait Side: Copy + Ord {
    /// Whether that is the guest.
    const IS_GUEST: bool;
}

/// In the guest.
#[derive(Clone, Copy, PartialEq, Eq, PartialOrd, Ord)]
pub struct Guest;

impl Side for Guest {
    const IS_GUEST: bool = true;
}

/// On the host.
#[derive(Clone, Copy, PartialEq, Eq, PartialOrd, Ord)]
pub struct Host;

impl Side for Host {
    const IS_GUEST: bool = false;
}

/// What an id is of.
pub trait Kind: Copy + Ord {
    /// The names of the types of ids in the guest and on the host.
    const NAMES: (&'static str, &'static str);
}

/// A user.
#[derive(Clone, Copy, PartialEq, Eq, PartialOrd, Ord)]
pub struct User;

impl Kind for User {
    const NAMES: (&'static str, &'static str) = ("GuestUid", "HostUid");
}

/// A group.
#[derive(Clone, Copy, PartialEq, Eq, PartialOrd, Ord)]
pub struct Group;

impl Kind for Group {
    const NAMES: (&'static str, &'static str) = ("GuestGid", "HostGid");
}

/// An id of a kind, on a side.
#[derive(Clone, Copy, PartialEq, Eq, PartialOrd, Ord)]
pub struct IdOf<S: Side, K: Kind>(u32, PhantomData<(S, K)>);

impl<S: Side, K: Kind> Model for IdOf<S, K> {
    ghost Value = { ℕ };

    ghost view = { λ id. id.0 };

    ghost invariant = { λ id. id.0 ≤ 4294967295 };

    ghost inverse = { λ n. record { 0 = n; 1 = record {} } };
}

impl<S: Side, K: Kind> Id for IdOf<S, K> {
    type Inner = u32;

    type Offset = OffsetOf<K>;

    ghost number = { λ id. id };

    fn is_root(&self) -> bool {
        self.0 == 0
    }

    fn into_inner(self) -> u32 {
        self.0
    }

    fn bounded(self) {}

    fn keeps(_inner: u32, _made: Self) {}

    fn identified(self, _other: Self) {}

    fn ordered(self, _other: Self) {}

    fn subtracts(self, _other: Self) {}
}

impl<K: Kind> GuestId for IdOf<Guest, K> {
    type HostType = IdOf<Host, K>;

    fn id_mapped(self) -> IdOf<Host, K> {
        IdOf::from(self.0)
    }

    fn difference(self, _other: Self, _offset: OffsetOf<K>) {}

    fn adds(self, _offset: OffsetOf<K>) {}

    fn sum(self, _offset: OffsetOf<K>, _total: Self) {}
}

impl<K: Kind> HostId for IdOf<Host, K> {
    type GuestType = IdOf<Guest, K>;

    fn id_mapped(self) -> IdOf<Guest, K> {
        IdOf::from(self.0)
    }

    fn difference(self, _other: Self, _offset: OffsetOf<K>) {}

    fn adds(self, _offset: OffsetOf<K>) {}

    fn sum(self, _offset: OffsetOf<K>, _total: Self) {}
}

impl<S: Side, K: Kind> From<u32> for IdOf<S, K> {
    ghost from_gives = { λ n id. id ≡ n };

    fn from(n: u32) -> Self {
        IdOf(n, PhantomData)
    }
}

impl<S: Side, K: Kind> Default for IdOf<S, K> {
    ghost is_default = { λ id. id ≡ 0 };

    fn default() -> Self {
        IdOf::from(0)
    }
}

impl<S: Side, K: Kind> Add<OffsetOf<K>> for IdOf<S, K> {
    type Output = Self;

    ghost can_add = { λ id offset. id + offset ≤ 4294967295 };

    ghost add_gives = { λ id offset total. total ≡ id + offset };

    fn add(self, offset: OffsetOf<K>) -> Self {
        IdOf::from(self.0 + offset.0)
    }
}

impl<S: Side, K: Kind> Sub for IdOf<S, K> {
    type Output = OffsetOf<K>;

    ghost can_sub = { λ id other. other ≤ id };

    ghost sub_gives = { λ id other offset. offset ≡ id - other };

    fn sub(self, other: Self) -> OffsetOf<K> {
        OffsetOf(self.0 - other.0, PhantomData)
    }
}

impl<S: Side, K: Kind> fmt::Debug for IdOf<S, K> {
    fn fmt<W: fmt::Write>(&self, f: &mut fmt::Formatter<W>) -> fmt::Result {
        let (guest, host) = K::NAMES;
        let name = if S::IS_GUEST { guest } else { host };
        f.debug_tuple(name).field(&self.0).finish()
    }
}

impl<S: Side, K: Kind> fmt::Display for IdOf<S, K> {
    ghost output = { λ id. Some (decimal id) };

    ghost styled_output = { λ id style. Some (styled_decimal style id) };

    fn fmt<W: fmt::Write>(&self, f: &mut fmt::Formatter<W>) -> fmt::Result {
        fmt::Display::fmt(&self.0, f)
    }
}

/// The distance between two ids of a kind, on one side.
#[derive(Clone, Copy)]
pub struct OffsetOf<K: Kind>(u32, PhantomData<K>);

impl<K: Kind> Model for OffsetOf<K> {
    ghost Value = { ℕ };

    ghost view = { λ offset. offset.0 };

    ghost invariant = { λ offset. offset.0 ≤ 4294967295 };

    ghost inverse = { λ n. record { 0 = n; 1 = record {} } };
}

impl<K: Kind> IdOffset for OffsetOf<K> {
    ghost number = { λ offset. offset };

    fn to_u32(self) -> u32 {
        self.0
    }

    fn bounded(self) {}
}
