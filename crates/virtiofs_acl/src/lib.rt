//! Ids inside the values of extended attributes.
//!
//! The values of three attributes hold ids of users and groups: the two access control lists of a
//! file, and its capability. A daemon that maps ids has to map these too. Otherwise a right that
//! the guest gives to its user 1000 would go to user 1000 of the host. [`carries_ids`] says which
//! names have such values.
//!
//! The calls that convert a value change its ids in place and nothing else, and the value keeps its
//! length. Only the two calls `.._in_revision_3` write a new value, into memory that the caller
//! lends. Each call tests the whole value first; if it returns an error, no byte has changed.
//! Nothing is allocated.
//!
//! An access control list is a header of 4 bytes that says version 2, and entries of 8 bytes: a
//! tag, permissions, and a field for an id, all with the lowest byte first. Only the tags 2 (a user)
//! and 8 (a group) have an id; the field of the others is unchanged. Two users of a list may not
//! become the same user, since one would get the rights of the other; nor may two groups.
//!
//! A capability of revision 3 ends with the id of root: the user id that is root for this
//! capability. Revisions 1 and 2 have no such field, and the id counts as 0. So they are accepted
//! unchanged if 0 is mapped to 0. If it is not, [`capability_to_host_in_revision_3`] writes the
//! same in revision 3 into memory that the caller lends.
//!
//! [`translate_acl`], [`translate_capability`] and [`write_revision_3`] do the same in the direction
//! that they are given, by maps that are lent as words: [`virtiofs_map::soft_idmap::IdMapRef`].
#![tactic(auto)]

ghost use Rattle.std.specs.Prelude.{◌≡◌, ◌↔◌, IsOk, IfErr, IsErrAnd, OnOk, OnErr, Some, length};
ghost use Rattle.virtiofs_acl.specs.Acl.{IdsBecome, KeepsRest, GoesAcross, HasAclFault};
ghost use Rattle.virtiofs_acl.specs.AclLaws.{AllMapped, ComesBack};
ghost use Rattle.virtiofs_acl.specs.Capability.{root_of, RootBecomes, KeepsFront, IsInRevision3, HasRoot};
ghost use Rattle.virtiofs_acl.specs.Capability.{RootGoesAcross, HasRootFault, HasCapabilityFault, RootComesBack};
ghost use Rattle.virtiofs_acl.specs.ValueKinds.{HasLists, HasCapability};
ghost use Rattle.virtiofs_acl.specs.declared.errors.AclError.{AclError};
ghost use Rattle.virtiofs_acl.specs.declared.errors.CapabilityError.{CapabilityError};
ghost use Rattle.virtiofs_map.specs.MappingLaws.{IsMappedBothWays};
ghost use Rattle.virtiofs_map.specs.declared.soft_idmap.entry.Direction.TheVariants.{GuestToHost, HostToGuest};

mod capabilities;
mod entries;
mod errors;
mod lists;
mod little_endian;
mod merges;
mod ways;

pub use capabilities::{translate_capability, write_revision_3};
pub use errors::{AclError, CapabilityError, EntryFault};
pub use lists::translate_acl;
pub use merges::EntryRoom;
use std::alloc::Allocator;
use virtiofs_map::id_types::{GuestGid, GuestUid, HostGid, HostUid};
use virtiofs_map::soft_idmap::{Direction, IdMap};
use virtiofs_map::xattrmap::XattrName;

/// The two kinds of values that contain ids.
#[derive(Clone, Copy, Debug, PartialEq, Eq)]
pub enum ValueKind {
    /// Access control lists: [`acl_to_host`] and [`acl_to_guest`].
    Acl,
    /// Capabilities: [`capability_to_host`] and [`capability_to_guest`].
    Capability,
}

/// Which kind of ids the values of that name contain, if any.
///
/// `system.posix_acl_access` and `system.posix_acl_default` have access control lists, and
/// `security.capability` has capabilities. `name` is the attribute's name on the host, as the
/// host's kernel knows it: the name after the attribute map was applied.
pub fn carries_ids(name: XattrName<'_>) -> Option<ValueKind>
    ensures acl { (result ≡ Some ValueKind.Acl) ↔ HasLists name.entry.bytes.now }
    ensures capability { (result ≡ Some ValueKind.Capability) ↔ HasCapability name.entry.bytes.now }
{
    let bytes = name.as_bytes();
    let access = bytes == b"system.posix_acl_access".as_slice();
    if access || bytes == b"system.posix_acl_default".as_slice() {
        return Some(ValueKind::Acl);
    }
    if bytes == b"security.capability".as_slice() {
        return Some(ValueKind::Capability);
    }
    None
}

/// Converts an access control list of the guest, in place, into one for the host: each id of a user
/// is mapped by `users`, and each id of a group by `groups`.
///
/// `room` needs one element for each entry of the value: n / 8 are enough for n bytes. The content
/// of `room` is overwritten. The entries are sorted in it, to see whether two ids would become the
/// same id.
///
/// # Errors
///
/// The error is the first of these that applies, and then no byte of the value has changed:
///
/// - [`AclError::TooShort`], [`AclError::Version`], [`AclError::Length`] and [`AclError::Room`], in
///   this order;
/// - [`AclError::Entry`] for the first entry whose tag, permissions or id is wrong (tested in this
///   order);
/// - [`AclError::Entry`] with [`EntryFault::Merges`], for the first entry such that an earlier
///   entry with the same tag and a different id would become the same id.
pub fn acl_to_host<A: Allocator>(
    users: &IdMap<GuestUid, HostUid, A>,
    groups: &IdMap<GuestGid, HostGid, A>,
    value: &mut [u8],
    room: &mut [EntryRoom],
) -> Result<(), AclError>
    ensures users { OnOk result (IdsBecome 2 users.now GuestToHost value.old value.new) }
    ensures groups { OnOk result (IdsBecome 8 groups.now GuestToHost value.old value.new) }
    ensures rest { OnOk result (KeepsRest value.old value.new) }
    ensures accepted { OnOk result (
        GoesAcross users.now groups.now GuestToHost (length room.old) value.old) }
    ensures complete { GoesAcross users.now groups.now GuestToHost (length room.old) value.old
        → IsOk result }
    ensures refused { IfErr result (
        HasAclFault users.now groups.now GuestToHost (length room.old) value.old) }
    ensures faulty { (fault : AclError)
        → HasAclFault users.now groups.now GuestToHost (length room.old) value.old fault
        → IsErrAnd result (λ e. e ≡ fault) }
    ensures unchanged { OnErr result (value.new ≡ value.old) }
    ensures leads_back { OnOk result (AllMapped users.now groups.now GuestToHost value.old
        → ComesBack users.now groups.now GuestToHost (length room.old) value.old value.new) }
{
    let (users, groups) = (users.lent(), groups.lent());
    translate_acl(&users, &groups, Direction::GuestToHost, value, room)
}

/// Converts an access control list of the host, in place, into one for the guest, as
/// [`acl_to_host`] does the other way.
///
/// # Errors
///
/// Those of [`acl_to_host`], in the same order. No specification can forbid an id of the host.
pub fn acl_to_guest<A: Allocator>(
    users: &IdMap<GuestUid, HostUid, A>,
    groups: &IdMap<GuestGid, HostGid, A>,
    value: &mut [u8],
    room: &mut [EntryRoom],
) -> Result<(), AclError>
    ensures users { OnOk result (IdsBecome 2 users.now HostToGuest value.old value.new) }
    ensures groups { OnOk result (IdsBecome 8 groups.now HostToGuest value.old value.new) }
    ensures rest { OnOk result (KeepsRest value.old value.new) }
    ensures accepted { OnOk result (
        GoesAcross users.now groups.now HostToGuest (length room.old) value.old) }
    ensures complete { GoesAcross users.now groups.now HostToGuest (length room.old) value.old
        → IsOk result }
    ensures refused { IfErr result (
        HasAclFault users.now groups.now HostToGuest (length room.old) value.old) }
    ensures faulty { (fault : AclError)
        → HasAclFault users.now groups.now HostToGuest (length room.old) value.old fault
        → IsErrAnd result (λ e. e ≡ fault) }
    ensures unchanged { OnErr result (value.new ≡ value.old) }
    ensures leads_back { OnOk result (AllMapped users.now groups.now HostToGuest value.old
        → ComesBack users.now groups.now HostToGuest (length room.old) value.old value.new) }
{
    let (users, groups) = (users.lent(), groups.lent());
    translate_acl(&users, &groups, Direction::HostToGuest, value, room)
}

/// Converts a capability of the guest, in place, into one for the host: the id of root is mapped by
/// `users`. A value of revision 1 or 2 is unchanged.
///
/// # Errors
///
/// The error is the first of these that applies, and then no byte of the value has changed:
/// [`CapabilityError::TooShort`], [`CapabilityError::Revision`], [`CapabilityError::Length`],
/// [`CapabilityError::NoId`], [`CapabilityError::Forbidden`], and [`CapabilityError::RootMoves`].
/// After `RootMoves`, [`capability_to_host_in_revision_3`] can write the value.
pub fn capability_to_host<A: Allocator>(
    users: &IdMap<GuestUid, HostUid, A>,
    value: &mut [u8],
) -> Result<(), CapabilityError>
    ensures root { OnOk result (RootBecomes users.now GuestToHost value.old value.new) }
    ensures front { OnOk result (KeepsFront value.old value.new) }
    ensures accepted { OnOk result (RootGoesAcross users.now GuestToHost value.old) }
    ensures complete { RootGoesAcross users.now GuestToHost value.old → IsOk result }
    ensures refused { IfErr result (HasCapabilityFault users.now GuestToHost value.old) }
    ensures faulty { (fault : CapabilityError)
        → HasCapabilityFault users.now GuestToHost value.old fault
        → IsErrAnd result (λ e. e ≡ fault) }
    ensures unchanged { OnErr result (value.new ≡ value.old) }
    ensures leads_back { OnOk result (
        IsMappedBothWays users.now GuestToHost (root_of value.old)
        → RootComesBack users.now GuestToHost value.old value.new) }
{
    translate_capability(&users.lent(), Direction::GuestToHost, value)
}

/// Converts a capability of the host, in place, into one for the guest, as [`capability_to_host`]
/// does the other way.
///
/// # Errors
///
/// Those of [`capability_to_host`], in the same order.
pub fn capability_to_guest<A: Allocator>(
    users: &IdMap<GuestUid, HostUid, A>,
    value: &mut [u8],
) -> Result<(), CapabilityError>
    ensures root { OnOk result (RootBecomes users.now HostToGuest value.old value.new) }
    ensures front { OnOk result (KeepsFront value.old value.new) }
    ensures accepted { OnOk result (RootGoesAcross users.now HostToGuest value.old) }
    ensures complete { RootGoesAcross users.now HostToGuest value.old → IsOk result }
    ensures refused { IfErr result (HasCapabilityFault users.now HostToGuest value.old) }
    ensures faulty { (fault : CapabilityError)
        → HasCapabilityFault users.now HostToGuest value.old fault
        → IsErrAnd result (λ e. e ≡ fault) }
    ensures unchanged { OnErr result (value.new ≡ value.old) }
    ensures leads_back { OnOk result (
        IsMappedBothWays users.now HostToGuest (root_of value.old)
        → RootComesBack users.now HostToGuest value.old value.new) }
{
    translate_capability(&users.lent(), Direction::HostToGuest, value)
}

/// Reads a capability of the guest, of any revision, and writes the same for the host in revision
/// 3: the flags and the two sets are the same, and the id of root is mapped by `users`.
///
/// # Errors
///
/// Those of [`capability_to_host`] except `RootMoves`, in the same order, and then nothing is
/// written.
pub fn capability_to_host_in_revision_3<A: Allocator>(
    users: &IdMap<GuestUid, HostUid, A>,
    value: &[u8],
    written: &mut [u8; 24],
) -> Result<(), CapabilityError>
    ensures root { OnOk result (RootBecomes users.now GuestToHost value.now written.new) }
    ensures same { OnOk result (IsInRevision3 value.now written.new) }
    ensures accepted { OnOk result (HasRoot users.now GuestToHost value.now) }
    ensures complete { HasRoot users.now GuestToHost value.now → IsOk result }
    ensures refused { IfErr result (HasRootFault users.now GuestToHost value.now) }
    ensures faulty { (fault : CapabilityError)
        → HasRootFault users.now GuestToHost value.now fault
        → IsErrAnd result (λ e. e ≡ fault) }
    ensures unchanged { OnErr result (written.new ≡ written.old) }
{
    write_revision_3(&users.lent(), Direction::GuestToHost, value, written)
}

/// Reads a capability of the host, of any revision, and writes the same for the guest in revision
/// 3, as [`capability_to_host_in_revision_3`] does the other way.
///
/// # Errors
///
/// Those of [`capability_to_guest`] except `RootMoves`, in the same order, and then nothing is
/// written.
pub fn capability_to_guest_in_revision_3<A: Allocator>(
    users: &IdMap<GuestUid, HostUid, A>,
    value: &[u8],
    written: &mut [u8; 24],
) -> Result<(), CapabilityError>
    ensures root { OnOk result (RootBecomes users.now HostToGuest value.now written.new) }
    ensures same { OnOk result (IsInRevision3 value.now written.new) }
    ensures accepted { OnOk result (HasRoot users.now HostToGuest value.now) }
    ensures complete { HasRoot users.now HostToGuest value.now → IsOk result }
    ensures refused { IfErr result (HasRootFault users.now HostToGuest value.now) }
    ensures faulty { (fault : CapabilityError)
        → HasRootFault users.now HostToGuest value.now fault
        → IsErrAnd result (λ e. e ≡ fault) }
    ensures unchanged { OnErr result (written.new ≡ written.old) }
{
    write_revision_3(&users.lent(), Direction::HostToGuest, value, written)
}
