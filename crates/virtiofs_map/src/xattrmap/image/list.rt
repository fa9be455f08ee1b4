//! The list of names that the guest gets, by an image.

ghost use Rattle.std.specs.Prelude.{◌≡◌, ◌+◌, ◌∷◌, [], ◌++◌, ◌<◌, ◌≤◌, ℕ, List, length};
ghost use Rattle.virtiofs_map.specs.Names.{server_answer};
ghost use Rattle.virtiofs_map.specs.NamesImage.{IsImage, IsNoImage, WritesList};
ghost use Rattle.virtiofs_map.specs.NamesImageParts.{Holds};
ghost use Rattle.virtiofs_map.specs.Rule.{MappingRule};

use crate::xattrmap::XattrMapRef;
use crate::xattrmap::image::{ListWritten, put};
use crate::xattrmap::listed::Seen;

/// Writes a name and a zero at a place, where there is room for them, and gives the place behind.
pub fn put_name(out: &mut [u8], at: usize, name: &[u8]) -> usize
    requires fits { at + length name.now + 1 ≤ 18446744073709551615 }
    ensures behind { result ≡ at + length name.now + 1 }
    ensures same { length out.new ≡ length out.old }
    ensures holds { (so_far first : List ℕ) → Holds so_far first out.old → at ≡ length so_far
        → Holds (so_far ++ name.now ++ 0 ∷ []) first out.new }
{
    let end = at + name.len() + 1;
    if end <= out.len() {
        put(out, at, name);
        put(out, end - 1, &[0]);
    }
    end
}

/// Writes the guest's list for the host's list of names, by an image. It does not allocate.
///
/// Where there is no room for it, or a name is not decided, the bytes may hold anything. The length
/// that is told is exact.
pub fn write_list(image: &[u8], list: &[u8], out: &mut [u8]) -> ListWritten
    ensures closed { IsNoImage image.now → result ≡ ListWritten.NoMap }
    ensures list { (rules : List MappingRule) → IsImage rules image.now
        → WritesList (server_answer rules list.now) out.old out.new result }
{
    let Some(map) = XattrMapRef::of(image) else {
        return ListWritten::NoMap;
    };
    let mut rest = list;
    let mut end = 0;
    'names: while !rest.is_empty() {
        let (seen, left) = map.first_seen(rest);
        rest = left;
        match seen {
            Seen::Undecided => return ListWritten::Undecided,
            Seen::Hidden => {}
            Seen::Listed(shown) => end = put_name(out, end, shown),
        }
    }
    if end == 0 {
        end = put_name(out, 0, &[]);
    }
    if end <= out.len() {
        ListWritten::Written(end)
    } else {
        ListWritten::NoRoom(end)
    }
}
