//! What the guest sees of the host's names: of one, and of a list.
ghost use Rattle.std.specs.Prelude.{◌≡◌, ◌≤◌, ◌<◌, ◌+◌, List, length, drop};
ghost use Rattle.virtiofs_map.specs.Names.{IsListed};
ghost use Rattle.virtiofs_map.specs.NamesImage.{IsImage, IsNoImage, WritesList};
ghost use Rattle.virtiofs_map.specs.Rule.{MappingRule};
ghost use Rattle.virtiofs_map_c.specs.Names.{IsFirstShown, IsShownAs, shown_as, shown_length, shown_list, without_empty};

use virtiofs_map::xattrmap::image::{Decision, ListWritten, cut_name, decide, put_name};
use virtiofs_map::xattrmap::{Side, XattrMapRef};

/// What the guest sees of a name of the host.
#[derive(Clone, Copy)]
pub enum Shown<'n> {
    /// The bytes of the map are no image.
    NoMap,
    /// No rule decides the name.
    Undecided,
    /// Nothing, or the empty name, which is none.
    Hidden,
    /// This name, which is a part of the host's.
    Name(&'n [u8]),
}

/// What stands behind so many bytes of a name, if that is a name.
fn named(name: &[u8], passed: usize) -> Shown<'_>
    ensures shown { IsShownAs (without_empty (IsListed (drop passed name.now))) result }
    ensures within { shown_length result ≤ length name.now }
{
    if name.len() <= passed {
        return Shown::Hidden;
    }
    Shown::Name(&name[passed..])
}

/// What the guest sees of a name of the host, by an image.
pub fn seen<'n>(image: &[u8], name: &'n [u8]) -> Shown<'n>
    ensures shown { (rules : List MappingRule) → IsImage rules image.now
        → IsShownAs (shown_as rules name.now) result }
    ensures no_map { IsNoImage image.now → result ≡ Shown.NoMap }
    ensures within { shown_length result ≤ length name.now }
{
    match decide(image, Side::Server, name) {
        Decision::NoMap => Shown::NoMap,
        Decision::Undecided => Shown::Undecided,
        Decision::Okay => named(name, 0),
        Decision::Prefix(prepend) => named(name, prepend.len()),
        Decision::Bad => Shown::Hidden,
        Decision::Unsupported => Shown::Hidden,
    }
}

/// What the guest sees of the first name of a list, and the rest of the list. An empty name is no
/// name, and hidden.
fn first_shown<'n>(image: &[u8], list: &'n [u8]) -> (Shown<'n>, &'n [u8])
    ensures first { (rules : List MappingRule) → IsImage rules image.now
        → IsFirstShown rules list.now result.0 result.1.now }
    ensures shorter { 0 < length list.now → length result.1.now < length list.now }
    ensures within { shown_length result.0 + length result.1.now ≤ length list.now }
    ensures zero { 0 < length result.1.now
        → shown_length result.0 + length result.1.now < length list.now }
{
    let (name, rest) = cut_name(list, 0);
    if name.is_empty() {
        return (Shown::Hidden, rest);
    }
    (seen(image, name), rest)
}

/// Writes the list that a daemon hands on to its guest for the host's list, by an image: each name
/// that the guest sees, with a zero behind it, and no empty name.
///
/// Where there is no room for it, or a name is not decided, the bytes may hold anything. The length
/// that is told is exact.
pub fn write_shown(image: &[u8], list: &[u8], out: &mut [u8]) -> ListWritten
    ensures no_map { IsNoImage image.now → result ≡ ListWritten.NoMap }
    ensures list { (rules : List MappingRule) → IsImage rules image.now
        → WritesList (shown_list rules list.now) out.old out.new result }
{
    if XattrMapRef::of(image).is_none() {
        return ListWritten::NoMap;
    }
    let mut rest = list;
    let mut end = 0;
    'names: while !rest.is_empty() {
        let (seen, left) = first_shown(image, rest);
        rest = left;
        match seen {
            Shown::NoMap => return ListWritten::NoMap,
            Shown::Undecided => return ListWritten::Undecided,
            Shown::Hidden => {}
            Shown::Name(name) => end = put_name(out, end, name),
        }
    }
    if end <= out.len() {
        ListWritten::Written(end)
    } else {
        ListWritten::NoRoom(end)
    }
}
