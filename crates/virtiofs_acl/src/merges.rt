//! The entries of an access control list whose ids would become one.
//!
//! Entries of one tag whose ids become the same number stand beside each other once they are sorted
//! by what their ids become. So neighbours are enough to see whether two ids would merge.
ghost use Rattle.std.specs.Prelude.{◌≡◌, ◌⊎◌, ◌↔◌, ◌+◌, ◌*◌, ◌<◌, ◌≤◌, All, IsTrue, IfNone, IfSome, Some, length, take};
ghost use Rattle.virtiofs_acl.specs.AclParts.{AllSoundBelow, Places, AreInOrder, Clashes, HasClash, MeetsClashes};
ghost use Rattle.virtiofs_acl.specs.AclParts.{NoneMerges, IsFirstToMerge, OfWays};

use crate::entries::entry_at;
use crate::ways::Ways;

/// Room for one entry of an access control list: a caller lends a slice of these to
/// [`acl_to_host`](crate::acl_to_host) and [`acl_to_guest`](crate::acl_to_guest).
///
/// What a call leaves in it says nothing, and it may be lent again. It is C's
/// `struct virtiofs_entry_room`.
#[repr(C)]
#[derive(Clone, Copy, Debug, PartialEq, Eq, PartialOrd, Ord)]
pub struct EntryRoom {
    tag: u16,
    id: u32,
    entry: usize,
}

impl EntryRoom {
    /// Room for one entry.
    pub fn new() -> EntryRoom {
        EntryRoom {
            tag: 0,
            id: 0,
            entry: 0,
        }
    }
}

/// Puts each entry that has an id into the room, with what its id becomes. Returns their number.
fn place(ways: &Ways<'_>, value: &[u8], count: usize, room: &mut [EntryRoom]) -> usize
    requires in_value { 4 + 8 * count ≤ length value.now }
    requires fits { count ≤ length room.old }
    ensures within { result ≤ count }
    ensures entries { All (λ one. one.entry < count) (take result room.new) }
    ensures placed { OfWays ways.now (λ users groups direction.
        AllSoundBelow users groups direction value.now count
        → Places users groups direction value.now count (take result room.new)) }
{
    let mut used = 0;
    for k in 0..count {
        let entry = entry_at(value, k);
        if entry.has_id() {
            if let Some(id) = ways.becomes(entry.tag, entry.id) {
                room[used] = EntryRoom {
                    tag: entry.tag,
                    id,
                    entry: k,
                };
                used += 1;
            }
        }
    }
    used
}

/// The lesser of `k` and `least`; `k` where there is no `least`.
fn lesser(least: Option<usize>, k: usize) -> usize
    ensures below { result ≤ k }
    ensures least { IfSome least (λ m. result ≤ m) }
    ensures one { (result ≡ k) ⊎ (least ≡ Some result) }
{
    match least {
        Some(m) if m < k => m,
        _ => k,
    }
}

/// Whether two neighbours are of entries with different ids that would become one.
fn clash(value: &[u8], one: EntryRoom, other: EntryRoom) -> bool
    requires one { 12 + 8 * one.entry ≤ length value.now }
    requires other { 12 + 8 * other.entry ≤ length value.now }
    ensures { IsTrue result ↔ Clashes value.now one other }
{
    one.tag == other.tag
        && one.id == other.id
        && entry_at(value, one.entry).id != entry_at(value, other.entry).id
}

/// The first entry whose id would become what another id of an earlier entry becomes.
fn least_clash(value: &[u8], placed: &[EntryRoom]) -> Option<usize>
    requires in_value { All (λ one. 12 + 8 * one.entry ≤ length value.now) placed.now }
    requires in_order { AreInOrder placed.now }
    ensures found { IfSome result (HasClash value.now placed.now) }
    ensures least { MeetsClashes value.now placed.now (length placed.now) result }
{
    let mut least = None;
    for i in 1..placed.len() {
        let here = placed[i];
        if clash(value, placed[i - 1], here) {
            least = Some(lesser(least, here.entry));
        }
    }
    least
}

/// The first entry whose id would become what another id of an earlier entry of its tag becomes.
pub(crate) fn first_merged(
    ways: &Ways<'_>,
    value: &[u8],
    count: usize,
    room: &mut [EntryRoom],
) -> Option<usize>
    requires in_value { 4 + 8 * count ≤ length value.now }
    requires fits { count ≤ length room.old }
    ensures none { OfWays ways.now (λ users groups direction.
        AllSoundBelow users groups direction value.now count
        → IfNone result (NoneMerges users groups direction value.now count)) }
    ensures first { OfWays ways.now (λ users groups direction.
        AllSoundBelow users groups direction value.now count
        → IfSome result (IsFirstToMerge users groups direction value.now count)) }
{
    let used = place(ways, value, count, room);
    let placed = &mut room[..used];
    placed.sort_unstable();
    least_clash(value, placed)
}
