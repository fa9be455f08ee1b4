//! Writes the image of a map of names.

ghost use Rattle.std.specs.Prelude.{◌≡◌, ◌+◌, ◌*◌, ◌<◌, ◌≤◌, ◌++◌, All, IfNone, IfOk, IfSome, OnOk, length};
ghost use Rattle.virtiofs_map.specs.NamesImage.{longest_image};
ghost use Rattle.virtiofs_map.specs.NamesImageParts.{ArePlaces, IsWholeImage, header_of};
ghost use Rattle.virtiofs_map.specs.Rule.{HasNoZero};

use crate::xattrmap::image::header::{HEADER, KIND};
use crate::xattrmap::le_u64::push_le_u64;
use crate::xattrmap::rules::Rules;
use crate::xattrmap::trie::{ROW, push_rows, tries_of};
use std::alloc::{AllocError, Allocator};

/// Every place of an image is below this.
const LIMIT: usize = 281474976710656;

/// Where the second, the third and the fourth part of an image begin, and where the last one ends.
#[derive(Clone, Copy)]
pub(crate) struct Places {
    pub(crate) server: usize,
    pub(crate) rules: usize,
    pub(crate) bytes: usize,
    pub(crate) end: usize,
}

/// Where a part ends that begins at `from` and has `count` elements of that size; `None` where no
/// image reaches so far. A number of eight bytes stands behind the last part.
fn end_of(from: usize, count: usize, size: usize) -> Option<usize>
    ensures end { IfSome result (λ end. end ≡ from + count * size) }
    ensures short { IfSome result (λ end. end + 8 ≤ longest_image) }
    ensures long { IfNone result (longest_image < from + count * size + 8) }
{
    let end = from.saturating_add(count.saturating_mul(size));
    if end < LIMIT - 8 { Some(end) } else { None }
}

/// Where the parts of an image stand, of tries whose rows have so many bytes and of rules; `None`
/// where no image is so long.
fn places_of<A: Allocator>(client: usize, server: usize, rules: &Rules<A>) -> Option<Places>
    ensures laid { IfSome result (ArePlaces client server
        (length rules.now.list) (length rules.now.bytes)) }
    ensures long { IfNone result (longest_image < 56 + client + server
        + 24 * length rules.now.list + length rules.now.bytes) }
{
    let first = end_of(HEADER, client, 1)?;
    let second = end_of(first, server, 1)?;
    let third = end_of(second, rules.len(), ROW)?;
    let end = end_of(third, rules.bytes().len(), 1)?;
    Some(Places {
        server: first,
        rules: second,
        bytes: third,
        end,
    })
}

/// The image of a map of the rules. An image that would be too long is answered as out of memory:
/// no process has memory for as many bytes.
pub(crate) fn image_of<A: Allocator + Copy>(
    alloc: A,
    rules: Rules<A>,
) -> Result<Vec<u8, A>, AllocError>
    requires { All HasNoZero rules.list }
    ensures { IfOk result (λ image. IsWholeImage rules.list image.items) }
{
    let (client, server) = tries_of(alloc, &rules)?;
    let Some(places) = places_of(client.len(), server.len(), &rules) else {
        return Err(AllocError);
    };
    let mut image = Vec::with_capacity(alloc, places.end + 8)?;
    push_header(&mut image, places)?;
    push_rows(&mut image, client.as_slice(), places.bytes)?;
    push_rows(&mut image, server.as_slice(), places.bytes)?;
    image.extend_from_slice(rules.rows())?;
    image.extend_from_slice(rules.bytes())?;
    push_le_u64(&mut image, KIND)?;
    // The memory that was taken last is freed last: then allocators give all of it back.
    drop(rules);
    Ok(image)
}

/// Appends what an image is, and where its parts stand.
fn push_header<A: Allocator>(image: &mut Vec<u8, A>, places: Places) -> Result<(), AllocError>
    ensures { OnOk result (image.new.items ≡ image.old.items ++ header_of places) }
{
    push_le_u64(image, KIND)?;
    push_le_u64(image, HEADER as u64)?;
    push_le_u64(image, places.server as u64)?;
    push_le_u64(image, places.rules as u64)?;
    push_le_u64(image, places.bytes as u64)?;
    push_le_u64(image, places.end as u64)
}
