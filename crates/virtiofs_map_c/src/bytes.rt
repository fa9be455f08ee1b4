//! Bytes, as C lends them.
ghost use Rattle.std.specs.List.{before_first};
ghost use Rattle.std.specs.Prelude.{◌≡◌, ◌==◌, ◌+◌, ◌≤◌, List, length, IsTrue};
ghost use Rattle.virtiofs_map.specs.LeU64Parts.{le_u64_at};
ghost use Rattle.virtiofs_map.specs.NamesImage.{IsImage, IsNoImage};
ghost use Rattle.virtiofs_map.specs.Rule.{MappingRule};
ghost use Rattle.virtiofs_map_c.specs.Wholes.{AreAllBytes, IsNameMap, IsNoNameMap, cleared};

use virtiofs_map::xattrmap::image::cut_name;

/// Bytes that C lends for reading, and how many they are: two arguments of C.
///
/// The header demands an address that is not NULL, also of no bytes. For a plain slice the kit puts
/// another address in the place of NULL, and each lookup would wait for that.
#[repr(C)]
#[derive(Clone, Copy)]
pub struct Bytes<'b> {
    /// The bytes.
    pub lent: &'b [u8],
}

/// Room for bytes that C lends for writing, and how many they are: two arguments of C, of which the
/// same holds.
#[repr(C)]
#[derive(Drop)]
pub struct Room<'b> {
    /// The bytes.
    pub lent: &'b mut [u8],
}

/// The number of eight bytes, the lowest first, that begins there.
#[tactic(auto, unfolding(virtiofs_map::specs::LeU64Parts::le_u64_at))]
#[inline(always)]
fn le_u64_at(bytes: &[u8], from: usize) -> u64
    requires { from + 8 ≤ length bytes.now }
    ensures { result ≡ le_u64_at bytes.now from }
{
    let (numbers, _) = bytes[from..].as_chunks::<8>();
    u64::from_le_bytes(numbers[0])
}

/// Whether there are as many bytes as they say.
// (that there are as many as the shortest map has is tested anyway; with the length before the number, the compiler
// takes the end from the length, which is one instruction less)
#[inline(always)]
pub fn are_all(bytes: &[u8]) -> bool
    ensures yes { IsTrue result → AreAllBytes bytes.now }
    ensures all { 72 ≤ length bytes.now → AreAllBytes bytes.now → IsTrue result }
{
    bytes.len() >= 72 && bytes.len() as u64 - 8 == le_u64_at(bytes, 40)
}

/// The bytes, where they are as many as they say, and else none: then no call takes them for a map.
#[inline(always)]
pub fn all_of(bytes: &[u8]) -> &[u8]
    ensures map { (rules : List MappingRule) → IsNameMap rules bytes.now
        → IsImage rules result.now }
    ensures no_map { IsNoNameMap bytes.now → IsNoImage result.now }
{
    if are_all(bytes) { bytes } else { &[] }
}

/// Leaves bytes that are no map.
pub fn clear(bytes: &mut [u8])
    ensures { bytes.new ≡ cleared bytes.old }
{
    if !bytes.is_empty() {
        bytes[0] = 0;
    }
}

/// Bytes up to their first zero, as C reads a string.
pub fn before_zero(bytes: &[u8]) -> &[u8]
    ensures { result.now ≡ before_first (λ byte. byte == 0) bytes.now }
{
    // (it is faster to see that there is none than to look for its place)
    if !bytes.contains(&0) {
        return bytes;
    }
    let (name, _) = cut_name(bytes, 0);
    name
}
