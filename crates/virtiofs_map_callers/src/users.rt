//! How a daemon makes a map of user ids, and asks it. docs/RATTLE.md shows a part of this file.
ghost use Rattle.std.specs.Prelude.{◌≡◌, None, Some, IfOk, MatchOption};
ghost use Rattle.virtiofs_map.specs.Mapping.{Becomes};
ghost use Rattle.virtiofs_map.specs.Specifications.{texts_of, AllSay};
ghost use Rattle.virtiofs_map.specs.declared.soft_idmap.entry.Direction.TheVariants.{GuestToHost};

use std::alloc::Global;
use virtiofs_map::id_types::{GuestUid, HostUid};
use virtiofs_map::soft_idmap::{IdMap, SpecsError, laws};

/// The map that a daemon's settings ask for.
pub fn users(alloc: Global, texts: &[&str]) -> Result<IdMap<GuestUid, HostUid>, SpecsError>
    ensures { IfOk result (AllSay (texts_of texts.now)) }
{
    IdMap::from_specs(alloc, texts)
}

/// The map that the settings ask for when they are read again. Where they still say what the map
/// was made of, it is the same map.
pub fn users_again(
    alloc: Global,
    texts: &[&str],
    before: &IdMap<GuestUid, HostUid>,
) -> Result<IdMap<GuestUid, HostUid>, SpecsError>
    ensures { AllSay (texts_of texts.now) before.now
        → IfOk result (λ again. again ≡ before.now) }
{
    laws::texts_one_value();
    users(alloc, texts)
}

/// The host user who owns a file that the guest gave to the guest user `user`; `None` if that is
/// forbidden.
pub fn owner(map: &IdMap<GuestUid, HostUid>, user: GuestUid) -> Option<HostUid>
    ensures { MatchOption result
        (Becomes map.now GuestToHost user None)
        (λ owner. Becomes map.now GuestToHost user (Some owner)) }
{
    match map.map_guest(user) {
        Ok(owner) => Some(owner),
        Err(_) => None,
    }
}
