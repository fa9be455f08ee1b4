//! Ids inside the caller's values, changed by the caller's maps.
ghost use Rattle.std.specs.List.{before_first};
ghost use Rattle.std.specs.Prelude.{◌≡◌, ◌≢◌, ◌==◌, ◌⊎◌, ◌↔◌, ◌≤◌, List, length};
ghost use Rattle.virtiofs_acl.specs.ValueKinds.{HasLists, HasCapability};
ghost use Rattle.virtiofs_map.specs.declared.cmdline.IdMap.{IdMap as Specification};
ghost use Rattle.virtiofs_map.specs.declared.soft_idmap.entry.Direction.TheVariants.{GuestToHost, HostToGuest};
ghost use Rattle.virtiofs_map_c.specs.Faults.{ok, no_map, acl, capability, no_fault};
ghost use Rattle.virtiofs_map_c.specs.Values.{ChangesAcl, ChangesCapability, WritesCapability, IsAclCode, IsCapabilityCode, IsRootCode, IsAclTold, IsCapabilityTold, IsAnswerTold, acl_told, capability_told, entry_kind};
ghost use Rattle.virtiofs_map_c.specs.Wholes.{IsIdMap, IsNoIdMap};

use crate::bytes::before_zero;
use crate::codes::{ACL, ACL_ENTRY, ACL_VALUE, CAPABILITY, CAPABILITY_VALUE, NO_IDS, NO_MAP, OK};
use crate::fault::Fault;
use crate::words::all_of;
use virtiofs_acl::{
    AclError, CapabilityError, EntryFault, EntryRoom, ValueKind, carries_ids, translate_acl,
    translate_capability, write_revision_3,
};
use virtiofs_map::soft_idmap::{Direction, IdMapRef};
use virtiofs_map::xattrmap::XattrName;

#[unsafe(no_mangle)]
pub extern "C" fn virtiofs_map_carries_ids(name: &[u8]) -> u32
    ensures lists { (result ≡ acl) ↔ HasLists (before_first (λ byte. byte == 0) name.now) }
    ensures capability { (result ≡ capability)
        ↔ HasCapability (before_first (λ byte. byte == 0) name.now) }
    ensures kind { result ≤ 2 }
{
    let Some(name) = XattrName::new(before_zero(name)) else {
        return NO_IDS;
    };
    match carries_ids(name) {
        Some(ValueKind::Acl) => ACL,
        Some(ValueKind::Capability) => CAPABILITY,
        None => NO_IDS,
    }
}

/// Tells what became of a list, for which room was lent for that many entries.
fn tell_acl(answer: Result<(), AclError>, lent: usize, fault: &mut Fault) -> u32
    ensures { IsAnswerTold (IsAclTold lent) answer result fault.new }
{
    match answer {
        Ok(()) => fault.none(OK),
        Err(error) => fault.tell(told_of_acl(error, lent)),
    }
}

/// Tells what became of a capability.
fn tell_capability(answer: Result<(), CapabilityError>, fault: &mut Fault) -> u32
    ensures { IsAnswerTold IsCapabilityTold answer result fault.new }
{
    match answer {
        Ok(()) => fault.none(OK),
        Err(error) => fault.tell(told_of_capability(error)),
    }
}

/// What C is told of a list that does not go across.
fn told_of_acl(error: AclError, lent: usize) -> Fault
    ensures { result ≡ acl_told lent error }
{
    match error {
        AclError::TooShort => Fault::at(19, ACL_VALUE, 0),
        AclError::Version { version } => Fault {
            seen: version as usize,
            ..Fault::at(20, ACL_VALUE, 0)
        },
        AclError::Length => Fault::at(21, ACL_VALUE, 0),
        AclError::Room { needed } => Fault {
            expected: needed,
            seen: lent,
            ..Fault::at(22, ACL_VALUE, 0)
        },
        AclError::Entry { entry, fault } => Fault::at(kind_of(fault), ACL_ENTRY, entry),
    }
}

/// The kind of what is wrong with an entry.
fn kind_of(fault: EntryFault) -> u32
    ensures { result ≡ entry_kind fault }
{
    match fault {
        EntryFault::UnknownTag => 23,
        EntryFault::Permission => 24,
        EntryFault::NoId => 25,
        EntryFault::Forbidden => 26,
        EntryFault::Merges => 27,
    }
}

/// What C is told of a capability that does not go across.
fn told_of_capability(error: CapabilityError) -> Fault
    ensures { result ≡ capability_told error }
{
    match error {
        CapabilityError::TooShort => Fault::at(19, CAPABILITY_VALUE, 0),
        CapabilityError::Revision { revision } => Fault {
            seen: revision as usize,
            ..Fault::at(20, CAPABILITY_VALUE, 0)
        },
        CapabilityError::Length => Fault::at(21, CAPABILITY_VALUE, 0),
        CapabilityError::NoId => Fault::at(25, CAPABILITY_VALUE, 0),
        CapabilityError::Forbidden => Fault::at(26, CAPABILITY_VALUE, 0),
        CapabilityError::RootMoves => Fault::at(28, CAPABILITY_VALUE, 0),
    }
}

/// Changes an access control list in place, in a direction.
fn change_acl(
    users: &[u32],
    groups: &[u32],
    direction: Direction,
    value: &mut [u8],
    room: &mut [EntryRoom],
    fault: &mut Fault,
) -> u32
    ensures answer { (specs others : List Specification) → IsIdMap specs users.now
        → IsIdMap others groups.now → ChangesAcl specs others direction
        (length room.old) value.old value.new result fault.new }
    ensures unchanged { result ≢ ok → value.new ≡ value.old }
    ensures no_map { IsNoIdMap users.now ⊎ IsNoIdMap groups.now → result ≡ no_map }
    ensures no_fault { (result ≡ ok) ⊎ (result ≡ no_map) → fault.new ≡ no_fault }
    ensures code { IsAclCode result }
{
    let Some(users) = IdMapRef::of(all_of(users)) else {
        return fault.none(NO_MAP);
    };
    let Some(groups) = IdMapRef::of(all_of(groups)) else {
        return fault.none(NO_MAP);
    };
    let lent = room.len();
    let answer = translate_acl(&users, &groups, direction, value, room);
    tell_acl(answer, lent, fault)
}

#[unsafe(no_mangle)]
pub extern "C" fn virtiofs_map_acl_to_host(
    users: &[u32],
    groups: &[u32],
    value: &mut [u8],
    room: &mut [EntryRoom],
    fault: &mut Fault,
) -> u32
    ensures answer { (specs others : List Specification) → IsIdMap specs users.now
        → IsIdMap others groups.now → ChangesAcl specs others GuestToHost
        (length room.old) value.old value.new result fault.new }
    ensures unchanged { result ≢ ok → value.new ≡ value.old }
    ensures no_map { IsNoIdMap users.now ⊎ IsNoIdMap groups.now → result ≡ no_map }
    ensures no_fault { (result ≡ ok) ⊎ (result ≡ no_map) → fault.new ≡ no_fault }
    ensures code { IsAclCode result }
{
    change_acl(users, groups, Direction::GuestToHost, value, room, fault)
}

#[unsafe(no_mangle)]
pub extern "C" fn virtiofs_map_acl_to_guest(
    users: &[u32],
    groups: &[u32],
    value: &mut [u8],
    room: &mut [EntryRoom],
    fault: &mut Fault,
) -> u32
    ensures answer { (specs others : List Specification) → IsIdMap specs users.now
        → IsIdMap others groups.now → ChangesAcl specs others HostToGuest
        (length room.old) value.old value.new result fault.new }
    ensures unchanged { result ≢ ok → value.new ≡ value.old }
    ensures no_map { IsNoIdMap users.now ⊎ IsNoIdMap groups.now → result ≡ no_map }
    ensures no_fault { (result ≡ ok) ⊎ (result ≡ no_map) → fault.new ≡ no_fault }
    ensures code { IsAclCode result }
{
    change_acl(users, groups, Direction::HostToGuest, value, room, fault)
}

/// Changes a capability in place, in a direction.
fn change_capability(
    users: &[u32],
    direction: Direction,
    value: &mut [u8],
    fault: &mut Fault,
) -> u32
    ensures answer { (specs : List Specification) → IsIdMap specs users.now
        → ChangesCapability specs direction value.old value.new result fault.new }
    ensures unchanged { result ≢ ok → value.new ≡ value.old }
    ensures no_map { IsNoIdMap users.now → result ≡ no_map }
    ensures no_fault { (result ≡ ok) ⊎ (result ≡ no_map) → fault.new ≡ no_fault }
    ensures code { IsCapabilityCode result }
{
    let Some(users) = IdMapRef::of(all_of(users)) else {
        return fault.none(NO_MAP);
    };
    tell_capability(translate_capability(&users, direction, value), fault)
}

#[unsafe(no_mangle)]
pub extern "C" fn virtiofs_map_capability_to_host(
    users: &[u32],
    value: &mut [u8],
    fault: &mut Fault,
) -> u32
    ensures answer { (specs : List Specification) → IsIdMap specs users.now
        → ChangesCapability specs GuestToHost value.old value.new result fault.new }
    ensures unchanged { result ≢ ok → value.new ≡ value.old }
    ensures no_map { IsNoIdMap users.now → result ≡ no_map }
    ensures no_fault { (result ≡ ok) ⊎ (result ≡ no_map) → fault.new ≡ no_fault }
    ensures code { IsCapabilityCode result }
{
    change_capability(users, Direction::GuestToHost, value, fault)
}

#[unsafe(no_mangle)]
pub extern "C" fn virtiofs_map_capability_to_guest(
    users: &[u32],
    value: &mut [u8],
    fault: &mut Fault,
) -> u32
    ensures answer { (specs : List Specification) → IsIdMap specs users.now
        → ChangesCapability specs HostToGuest value.old value.new result fault.new }
    ensures unchanged { result ≢ ok → value.new ≡ value.old }
    ensures no_map { IsNoIdMap users.now → result ≡ no_map }
    ensures no_fault { (result ≡ ok) ⊎ (result ≡ no_map) → fault.new ≡ no_fault }
    ensures code { IsCapabilityCode result }
{
    change_capability(users, Direction::HostToGuest, value, fault)
}

/// Writes a capability in revision 3, in a direction.
fn write_capability(
    users: &[u32],
    direction: Direction,
    value: &[u8],
    written: &mut [u8; 24],
    fault: &mut Fault,
) -> u32
    ensures answer { (specs : List Specification) → IsIdMap specs users.now
        → WritesCapability specs direction value.now written.new result fault.new }
    ensures unchanged { result ≢ ok → written.new ≡ written.old }
    ensures no_map { IsNoIdMap users.now → result ≡ no_map }
    ensures no_fault { (result ≡ ok) ⊎ (result ≡ no_map) → fault.new ≡ no_fault }
    ensures code { IsRootCode result }
{
    let Some(users) = IdMapRef::of(all_of(users)) else {
        return fault.none(NO_MAP);
    };
    tell_capability(write_revision_3(&users, direction, value, written), fault)
}

#[unsafe(no_mangle)]
pub extern "C" fn virtiofs_map_capability_to_host_in_revision_3(
    users: &[u32],
    value: &[u8],
    written: &mut [u8; 24],
    fault: &mut Fault,
) -> u32
    ensures answer { (specs : List Specification) → IsIdMap specs users.now
        → WritesCapability specs GuestToHost value.now written.new result fault.new }
    ensures unchanged { result ≢ ok → written.new ≡ written.old }
    ensures no_map { IsNoIdMap users.now → result ≡ no_map }
    ensures no_fault { (result ≡ ok) ⊎ (result ≡ no_map) → fault.new ≡ no_fault }
    ensures code { IsRootCode result }
{
    write_capability(users, Direction::GuestToHost, value, written, fault)
}

#[unsafe(no_mangle)]
pub extern "C" fn virtiofs_map_capability_to_guest_in_revision_3(
    users: &[u32],
    value: &[u8],
    written: &mut [u8; 24],
    fault: &mut Fault,
) -> u32
    ensures answer { (specs : List Specification) → IsIdMap specs users.now
        → WritesCapability specs HostToGuest value.now written.new result fault.new }
    ensures unchanged { result ≢ ok → written.new ≡ written.old }
    ensures no_map { IsNoIdMap users.now → result ≡ no_map }
    ensures no_fault { (result ≡ ok) ⊎ (result ≡ no_map) → fault.new ≡ no_fault }
    ensures code { IsRootCode result }
{
    write_capability(users, Direction::HostToGuest, value, written, fault)
}
