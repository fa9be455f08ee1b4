//! The capability of a file, tested and then written.
ghost use Rattle.std.specs.Prelude.{◌≡◌, ◌≢◌, ◌↔◌, List, IfErr, IfOk, IfSome, IsNone, OnOk, OnErr, Some};
ghost use Rattle.virtiofs_acl.specs.AclLaws.{AreBytes};
ghost use Rattle.virtiofs_acl.specs.Capability.{IsRevision, HasSize, root_of, IsCapability, IsInRevision3};
ghost use Rattle.virtiofs_acl.specs.Capability.{HasRootFault};
ghost use Rattle.virtiofs_acl.specs.ValueChanges.{ChangesRoot, WritesRevision3};
ghost use Rattle.virtiofs_acl.specs.declared.errors.CapabilityError.TheVariants.{RootMoves};
ghost use Rattle.virtiofs_map.specs.Image.{IsImage};
ghost use Rattle.virtiofs_map.specs.Mapping.{Becomes};
ghost use Rattle.virtiofs_map.specs.declared.cmdline.IdMap.{IdMap as Specification};
ghost use Rattle.virtiofs_map.specs.declared.soft_idmap.entry.Direction.{Direction};

use crate::errors::CapabilityError;
use crate::little_endian::{read_four, write_four};
use virtiofs_map::soft_idmap::{Direction, IdMapRef};

/// How many bytes the values of a revision have, if there is such a revision.
fn size_of(revision: u8) -> Option<usize>
    ensures size { IfSome result (HasSize revision) }
    ensures none { IsNone result ↔ (¬ IsRevision revision) }
{
    match revision {
        1 => Some(12),
        2 => Some(20),
        3 => Some(24),
        _ => None,
    }
}

/// The id of root, which is 0 where the value has no field for it.
#[tactic(auto, using(crate::proofs::AclLawLemmas::are_bytes))]
fn root_of(value: &[u8]) -> Result<u32, CapabilityError>
    ensures root { IfOk result (λ root. root ≡ root_of value.now) }
    ensures capability { OnOk result (IsCapability value.now) }
    ensures refused { IfErr result (λ error. (users : List Specification) (direction : Direction)
        → HasRootFault users direction value.now error) }
    ensures bytes { AreBytes value.now }
{
    if value.len() < 4 {
        return Err(CapabilityError::TooShort);
    }
    let revision = value[3];
    let Some(size) = size_of(revision) else {
        return Err(CapabilityError::Revision { revision });
    };
    if value.len() != size {
        return Err(CapabilityError::Length);
    }
    if size < 24 {
        return Ok(0);
    }
    let root = read_four(value, 20);
    if root == u32::MAX {
        return Err(CapabilityError::NoId);
    }
    Ok(root)
}

/// What the id of root becomes.
fn new_root(
    users: &IdMapRef<'_>,
    direction: Direction,
    value: &[u8],
) -> Result<u32, CapabilityError>
    ensures root { (specs : List Specification) → IsImage specs users.now
        → IfOk result (λ root. Becomes specs direction (root_of value.now) (Some root)) }
    ensures id { IfOk result (λ root. root ≢ 4294967295) }
    ensures capability { OnOk result (IsCapability value.now) }
    ensures refused { (specs : List Specification) → IsImage specs users.now
        → IfErr result (HasRootFault specs direction value.now) }
    ensures has_field { IfErr result (λ e. e ≢ RootMoves) }
    ensures bytes { AreBytes value.now }
{
    let root = root_of(value)?;
    let Some(new_root) = users.becomes(direction, root) else {
        return Err(CapabilityError::Forbidden);
    };
    if new_root == u32::MAX {
        return Err(CapabilityError::NoId);
    }
    Ok(new_root)
}

/// Changes a capability as [`capability_to_host`](crate::capability_to_host) and
/// [`capability_to_guest`](crate::capability_to_guest) do, by a map that is lent as words.
pub fn translate_capability(
    users: &IdMapRef<'_>,
    direction: Direction,
    value: &mut [u8],
) -> Result<(), CapabilityError>
    ensures change { (specs : List Specification) → IsImage specs users.now
        → ChangesRoot specs direction value.old value.new result }
    ensures unchanged { OnErr result (value.new ≡ value.old) }
{
    let root = new_root(users, direction, value)?;
    if value.len() == 24 {
        write_four(value, 20, root);
    } else if root != 0 {
        return Err(CapabilityError::RootMoves);
    }
    Ok(())
}

/// Writes a capability in revision 3, with that id of root.
fn write_with_root(value: &[u8], root: u32, written: &mut [u8; 24])
    ensures root { root_of written.new ≡ root }
    ensures same { IsInRevision3 value.now written.new }
{
    for place in 0..20 {
        written[place] = if place < value.len() { value[place] } else { 0 };
    }
    written[3] = 3;
    write_four(written, 20, root);
}

/// Writes a capability in revision 3 as
/// [`capability_to_host_in_revision_3`](crate::capability_to_host_in_revision_3) and
/// [`capability_to_guest_in_revision_3`](crate::capability_to_guest_in_revision_3) do, by a
/// map that is lent as words.
pub fn write_revision_3(
    users: &IdMapRef<'_>,
    direction: Direction,
    value: &[u8],
    written: &mut [u8; 24],
) -> Result<(), CapabilityError>
    ensures change { (specs : List Specification) → IsImage specs users.now
        → WritesRevision3 specs direction value.now written.new result }
    ensures has_field { IfErr result (λ e. e ≢ RootMoves) }
    ensures unchanged { OnErr result (written.new ≡ written.old) }
{
    let root = new_root(users, direction, value)?;
    write_with_root(value, root, written);
    Ok(())
}
