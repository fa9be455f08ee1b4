//! The beginning and the end of an image: what it is, and where its parts stand.

ghost use Rattle.std.specs.Prelude.{◌≡◌, ◌<◌, ◌≤◌, ◌↔◌, length, IsFalse, IsTrue};
ghost use Rattle.virtiofs_map.specs.NamesImage.{HasEnd, HasPart, IsNoImage, part, part_start};

use crate::xattrmap::le_u64::le_u64_at;
use crate::xattrmap::trie::ROW;

/// What an image begins and ends with: the letters `vfsname`, and the version 2.
pub(crate) const KIND: u64 = 172664425955944054;

/// How many bytes stand before the first part.
pub(crate) const HEADER: usize = 48;

/// How many bytes an image has at least: those before the first part, and the row of a root.
const SHORTEST: usize = HEADER + ROW;

/// Whether an image that begins there ends among the bytes.
#[inline(always)]
fn has_end(image: &[u8]) -> bool
    requires { 48 ≤ length image.now }
    ensures { IsTrue result ↔ HasEnd image.now }
{
    let end = le_u64_at(image, 40) as usize;
    end <= image.len() - 8 && le_u64_at(image, end) == KIND
}

/// Whether the bytes begin and end as an image does.
#[inline(always)]
pub(crate) fn is_image(image: &[u8]) -> bool
    ensures { IsFalse result ↔ IsNoImage image.now }
{
    image.len() >= SHORTEST && le_u64_at(image, 0) == KIND && has_end(image)
}

/// Where the part of that number starts; 0 where nothing says so.
#[inline(always)]
pub(crate) fn part_start(image: &[u8], which: usize) -> usize
    requires { which < 4 }
    ensures { 48 ≤ length image.now → result ≡ part_start image.now which }
{
    if image.len() < HEADER {
        return 0;
    }
    le_u64_at(image, 8 * which + 8) as usize
}

/// The part of that number; nothing where it is not all there.
#[inline(always)]
pub(crate) fn part(image: &[u8], which: usize) -> &[u8]
    requires { which < 4 }
    ensures { 48 ≤ length image.now → HasPart image.now which
        → result.now ≡ part image.now which }
{
    if image.len() < HEADER {
        return &[];
    }
    let from = le_u64_at(image, 8 * which + 8) as usize;
    let to = le_u64_at(image, 8 * which + 16) as usize;
    if from <= to && to <= image.len() {
        &image[from..to]
    } else {
        &[]
    }
}
