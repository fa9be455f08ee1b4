//! User and group ids, of the guest and of the host, as types that cannot be mixed up.
//!
//! A plain number does not say whether it is a user or a group, nor on which side it is valid. Here
//! each kind of id has a type of its own, so an id that was not translated where it had to be is a
//! type error. [`GuestId`] and [`HostId`] pair the types: a caller that is generic over such a pair
//! is written once for users, for groups and for ids of its own.
//!
//! # Moving a range
//!
//! The distance between two ids of one type is an offset, and an offset is added to an id of the
//! *other* side. So an id is moved from one range to another by
//!
//! ```text
//! let host_id = host_start + (guest_id - guest_start);
//! ```
//!
//! and the types ensure that both ids of the difference are of one side, and that the sum is of the
//! other. An offset has no constructor: only a difference makes one.
//!
//! # What a generic caller knows
//!
//! Contracts see an id and an offset by its `number`, from 0 to 4294967295. A method of these
//! traits whose body is empty is a law: it does nothing when it runs, and its contract is a fact
//! about its arguments that each implementer proves. A generic caller names the
//! laws that it needs:
//!
//! ```text
//! id.subtracts(from);               // `id - from` may be taken if `from` is at most `id`
//! let offset = id - from;
//! id.difference(from, offset);      // and is the difference of the numbers
//! to.adds(offset);                  // `to + offset` may be taken if the sum is an id
//! let moved = to + offset;
//! to.sum(offset, moved);            // and is the sum of the numbers
//! ```

ghost use Rattle.std.specs.Prelude.{◌≡◌, ℕ, ◌+◌, ◌-◌, ◌≤◌, ◌↔◌, IsTrue, Some};
ghost use Rattle.std.specs.Ordering.{nat_cmp};

use std::fmt::{Debug, Display};
use std::ops::{Add, Sub};

mod ids;
mod numbers;

pub use ids::{GidOffset, GuestGid, GuestUid, HostGid, HostUid, UidOffset};
pub use numbers::{IdNumber, IdOffset};

/// A user or group id, of either side.
///
/// An id is known by its number, from 0 to 4294967295, and is compared as its number is.
pub trait Id: Copy + Clone + Debug + Display + Eq + Ord + From<Self::Inner> + Sub<Self> {
    /// The plain number that an id is made of.
    type Inner: IdNumber;

    /// The distance between two ids of this type.
    type Offset: IdOffset;

    // The number that contracts see.
    ghost number: { Self → ℕ };

    /// Whether this is the id of root, 0.
    fn is_root(&self) -> bool
        ensures { IsTrue result ↔ (number self.now ≡ 0) };

    /// The plain number, as `From` takes it.
    fn into_inner(self) -> Self::Inner
        ensures { Self.Inner.number result ≡ number self };

    /// Law: no id is above 4294967295.
    fn bounded(self)
        ensures { number self ≤ 4294967295 };

    /// Law: if `made` is what `From` makes of `inner`, both have the same number. With
    /// `identified`, `From` is the inverse of `into_inner`.
    fn keeps(inner: Self::Inner, made: Self)
        ensures { Self.from_gives inner made → number made ≡ Self.Inner.number inner };

    /// Law: two ids with the same number are equal.
    fn identified(self, other: Self)
        ensures { number self ≡ number other → self ≡ other };

    /// Law: `==`, `partial_cmp` and `cmp` are those of the numbers.
    fn ordered(self, other: Self)
        ensures equal { IsTrue (Self.eq self other) ↔ (number self ≡ number other) }
        ensures partial { Self.partial_cmp self other ≡
            Some (nat_cmp (number self) (number other)) }
        ensures total { Self.cmp self other ≡ nat_cmp (number self) (number other) };

    /// Law: `self - other` may be taken if and only if `other` is at most `self`.
    fn subtracts(self, other: Self)
        ensures { Self.can_sub self other ↔ (Self.number other ≤ Self.number self) };
}

/// An id that is valid in the guest.
pub trait GuestId: Id
    + Sub<Self, Output = Self::Offset>
    + Add<<Self::HostType as Id>::Offset, Output = Self> {
    /// The same kind of id on the host.
    type HostType: Id;

    /// The host id with the same number.
    fn id_mapped(self) -> Self::HostType
        ensures { Self.HostType.number result ≡ Self.number self };

    /// Law: if `offset` is `self - other`, its number is the difference of the numbers.
    fn difference(self, other: Self, offset: Self::Offset)
        ensures { Self.sub_gives self other offset →
            Self.Offset.number offset ≡ Self.number self - Self.number other };

    /// Law: `self + offset` may be taken if and only if the sum is at most 4294967295.
    fn adds(self, offset: <Self::HostType as Id>::Offset)
        ensures { Self.can_add self offset ↔
            (Self.number self + Self.HostType.Offset.number offset ≤ 4294967295) };

    /// Law: if `total` is `self + offset`, its number is the sum of the numbers.
    fn sum(self, offset: <Self::HostType as Id>::Offset, total: Self)
        ensures { Self.add_gives self offset total →
            Self.number total ≡ Self.number self + Self.HostType.Offset.number offset };
}

/// An id that is valid on the host.
pub trait HostId: Id
    + Sub<Self, Output = Self::Offset>
    + Add<<Self::GuestType as Id>::Offset, Output = Self> {
    /// The same kind of id in the guest.
    type GuestType: Id;

    /// The guest id with the same number.
    fn id_mapped(self) -> Self::GuestType
        ensures { Self.GuestType.number result ≡ Self.number self };

    /// Law: if `offset` is `self - other`, its number is the difference of the numbers.
    fn difference(self, other: Self, offset: Self::Offset)
        ensures { Self.sub_gives self other offset →
            Self.Offset.number offset ≡ Self.number self - Self.number other };

    /// Law: `self + offset` may be taken if and only if the sum is at most 4294967295.
    fn adds(self, offset: <Self::GuestType as Id>::Offset)
        ensures { Self.can_add self offset ↔
            (Self.number self + Self.GuestType.Offset.number offset ≤ 4294967295) };

    /// Law: if `total` is `self + offset`, its number is the sum of the numbers.
    fn sum(self, offset: <Self::GuestType as Id>::Offset, total: Self)
        ensures { Self.add_gives self offset total →
            Self.number total ≡ Self.number self + Self.GuestType.Offset.number offset };
}
