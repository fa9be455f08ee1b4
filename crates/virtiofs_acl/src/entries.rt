//! The entries of an access control list, each tested by itself.
ghost use Rattle.std.specs.Prelude.{◌≡◌, ◌↔◌, ◌+◌, ◌*◌, ◌<◌, ◌≤◌, IsTrue, IfOk, IfErr, IfNone, IfSome, OnOk, length};
ghost use Rattle.virtiofs_acl.specs.Acl.{entry_count, tag_of, permissions_of, id_of, IsTag, HasId, IsWhole, IsSound};
ghost use Rattle.virtiofs_acl.specs.Acl.{IsEntryFault};
ghost use Rattle.virtiofs_acl.specs.AclLaws.{AreBytes};
ghost use Rattle.virtiofs_acl.specs.AclParts.{IsSizeFault, AllSoundBelow, IsUnsoundBelow, OfWays};

use crate::errors::{AclError, EntryFault};
use crate::little_endian::{read_four, read_two};
use crate::ways::Ways;

/// An entry, as its bytes say.
#[derive(Clone, Copy)]
pub(crate) struct Entry {
    pub(crate) tag: u16,
    pub(crate) permissions: u16,
    pub(crate) id: u32,
}

impl Entry {
    /// Whether the entry's tag is that of a user or of a group.
    pub(crate) fn has_id(self) -> bool
        ensures { IsTrue result ↔ HasId self.tag }
    {
        self.tag == 2 || self.tag == 8
    }
}

/// The entry of that number.
pub(crate) fn entry_at(value: &[u8], k: usize) -> Entry
    requires { 12 + 8 * k ≤ length value.now }
    ensures tag { result.tag ≡ tag_of value.now k }
    ensures permissions { result.permissions ≡ permissions_of value.now k }
    ensures id { result.id ≡ id_of value.now k }
{
    Entry {
        tag: read_two(value, 4 + 8 * k),
        permissions: read_two(value, 6 + 8 * k),
        id: read_four(value, 8 + 8 * k),
    }
}

/// How many entries a value has; they fit into the room that is lent.
#[tactic(auto, using(crate::proofs::AclLawLemmas::are_bytes))]
pub(crate) fn count_entries(value: &[u8], room: usize) -> Result<usize, AclError>
    ensures count { IfOk result (λ count. count ≡ entry_count value.now) }
    ensures whole { OnOk result (IsWhole value.now) }
    ensures fits { OnOk result (entry_count value.now ≤ room) }
    ensures refused { IfErr result (IsSizeFault room value.now) }
    ensures bytes { AreBytes value.now }
{
    if value.len() < 4 {
        return Err(AclError::TooShort);
    }
    let version = read_four(value, 0);
    if version != 2 {
        return Err(AclError::Version { version });
    }
    let needed = (value.len() - 4) / 8;
    if value.len() != 4 + 8 * needed {
        return Err(AclError::Length);
    }
    if room < needed {
        return Err(AclError::Room { needed });
    }
    Ok(needed)
}

/// Whether there is such a tag.
fn is_tag(tag: u16) -> bool
    ensures { IsTrue result ↔ IsTag tag }
{
    tag == 1 || tag == 2 || tag == 4 || tag == 8 || tag == 16 || tag == 32
}

/// What is wrong with an entry by itself, if anything is.
fn fault_at(ways: &Ways<'_>, value: &[u8], k: usize) -> Option<EntryFault>
    requires { 12 + 8 * k ≤ length value.now }
    ensures sound { OfWays ways.now (λ users groups direction.
        IfNone result (IsSound users groups direction value.now k)) }
    ensures wrong { OfWays ways.now (λ users groups direction.
        IfSome result (IsEntryFault users groups direction value.now k)) }
{
    let entry = entry_at(value, k);
    if !is_tag(entry.tag) {
        return Some(EntryFault::UnknownTag);
    }
    if entry.permissions > 7 {
        return Some(EntryFault::Permission);
    }
    if !entry.has_id() {
        return None;
    }
    if entry.id == u32::MAX {
        return Some(EntryFault::NoId);
    }
    let Some(id) = ways.becomes(entry.tag, entry.id) else {
        return Some(EntryFault::Forbidden);
    };
    if id == u32::MAX {
        return Some(EntryFault::NoId);
    }
    None
}

/// Tests each entry by itself, in order.
pub(crate) fn test_entries(ways: &Ways<'_>, value: &[u8], count: usize) -> Result<(), AclError>
    requires { 4 + 8 * count ≤ length value.now }
    ensures sound { OfWays ways.now (λ users groups direction.
        OnOk result (AllSoundBelow users groups direction value.now count)) }
    ensures refused { OfWays ways.now (λ users groups direction.
        IfErr result (IsUnsoundBelow users groups direction value.now count)) }
{
    for k in 0..count {
        if let Some(fault) = fault_at(ways, value, k) {
            return Err(AclError::Entry { entry: k, fault });
        }
    }
    Ok(())
}
