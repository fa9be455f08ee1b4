//! Texts that the library prints: what they say, proved from its laws.
ghost use Rattle.std.specs.Prelude.{◌≡◌, IfOk, string_bytes};
ghost use Rattle.std.specs.Str.{chars};
ghost use Rattle.virtiofs_map.specs.NamespaceText.{SaysNamespace};
ghost use Rattle.virtiofs_map.specs.Printed.{map_error_text};
ghost use Rattle.virtiofs_map.specs.SpecificationText.{Says};
ghost use Rattle.virtiofs_map.specs.declared.cmdline.IdMap.TheVariants.{ForbidGuest};

use std::alloc::{AllocError, Global};
use virtiofs_map::cmdline;
use virtiofs_map::id_types::Id;
use virtiofs_map::idmap::{self, UidMap};
use virtiofs_map::soft_idmap::MapError;

/// A text that forbids guest ids, proved from the law.
pub fn forbidding(alloc: Global, from_guest: u32, count: u32) -> Result<String, AllocError>
    ensures { IfOk result (λ text.
        Says (chars (string_bytes text)) (ForbidGuest from_guest count)) }
{
    let spec = cmdline::IdMap::ForbidGuest { from_guest, count };
    cmdline::laws::reads_back();
    spec.to_string(alloc)
}

/// The printed form of a range of user ids, proved from the law.
pub fn printed(alloc: Global, map: &UidMap) -> Result<String, AllocError>
    ensures { IfOk result (λ text. SaysNamespace (chars (string_bytes text))
        map.now.inside_uid map.now.outside_uid map.now.count) }
{
    let UidMap {
        inside_uid: _inside,
        outside_uid: _outside,
        count: _count,
    } = *map;
    idmap::laws::reads_back();
    map.to_string(alloc)
}

/// The text of an error about an id, as its contract has it for every type of id.
pub fn text_of<Source: Id>(alloc: Global, fault: &MapError<Source>) -> Result<String, AllocError>
    ensures { IfOk result (λ text. string_bytes text ≡ map_error_text Source.number fault.now) }
{
    fault.to_string(alloc)
}
