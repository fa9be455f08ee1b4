//! An access control list, tested as a whole and then written.
ghost use Rattle.std.specs.Prelude.{◌≡◌, ◌+◌, ◌*◌, ◌≤◌, List, OnErr, length};
ghost use Rattle.virtiofs_acl.specs.AclParts.{AllSoundBelow, IsWritten, OfWays};
ghost use Rattle.virtiofs_acl.specs.ValueChanges.{ChangesList};
ghost use Rattle.virtiofs_map.specs.Image.{IsImage};
ghost use Rattle.virtiofs_map.specs.declared.cmdline.IdMap.{IdMap as Specification};

use crate::entries::{count_entries, entry_at, test_entries};
use crate::errors::{AclError, EntryFault};
use crate::little_endian::write_four;
use crate::merges::{EntryRoom, first_merged};
use crate::ways::Ways;
use virtiofs_map::soft_idmap::{Direction, IdMapRef};

/// Writes what each id becomes in its place.
fn write_entries(ways: &Ways<'_>, value: &mut [u8], count: usize)
    requires { 4 + 8 * count ≤ length value.old }
    ensures { OfWays ways.now (λ users groups direction.
        AllSoundBelow users groups direction value.old count
        → IsWritten users groups direction value.old value.new count) }
{
    for k in 0..count {
        let entry = entry_at(value, k);
        if entry.has_id() {
            if let Some(id) = ways.becomes(entry.tag, entry.id) {
                write_four(value, 8 + 8 * k, id);
            }
        }
    }
}

/// Changes an access control list as [`acl_to_host`](crate::acl_to_host) and
/// [`acl_to_guest`](crate::acl_to_guest) do, by maps that are lent as words.
pub fn translate_acl(
    users: &IdMapRef<'_>,
    groups: &IdMapRef<'_>,
    direction: Direction,
    value: &mut [u8],
    room: &mut [EntryRoom],
) -> Result<(), AclError>
    ensures change { (specs others : List Specification) → IsImage specs users.now
        → IsImage others groups.now
        → ChangesList specs others direction (length room.old) value.old value.new result }
    ensures unchanged { OnErr result (value.new ≡ value.old) }
{
    let ways = Ways {
        users,
        groups,
        direction,
    };
    let count = count_entries(value, room.len())?;
    test_entries(&ways, value, count)?;
    if let Some(entry) = first_merged(&ways, value, count, room) {
        return Err(AclError::Entry {
            entry,
            fault: EntryFault::Merges,
        });
    }
    write_entries(&ways, value, count);
    Ok(())
}
