//! Images of maps of names: bytes that are written once, and then only read.
//!
//! An image takes no memory but its own bytes, and may be read by any number of threads at once. It
//! begins with six numbers of eight bytes, the lowest byte first: what it is, and where its four
//! parts begin and end. The parts are the rows of the client's trie, those of the server's, the
//! rows of the rules, and the bytes of all patterns. It ends with the first number again, so a part
//! of an image with zeros behind it is none. The functions that read an image take any bytes, and
//! read nothing outside them: bytes that do not begin and end as an image does are no map.

ghost use Rattle.std.specs.List.{before_first};
ghost use Rattle.std.specs.Prelude.{◌≡◌, ◌+◌, ◌*◌, ◌<◌, ◌≤◌, ◌==◌, ◌↔◌, ◌++◌, ℕ, List, length, min, IfNone, IfSome, IsSomeAnd, IsTrue, IsNone};
ghost use Rattle.std.specs.Str.{IsUtf8, chars};
ghost use Rattle.virtiofs_map.specs.Audit.{Terminated};
ghost use Rattle.virtiofs_map.specs.NamesImage.{HasImage, IsImage, IsNoImage, Says, WritesImage, image_length, longest_image};
ghost use Rattle.virtiofs_map.specs.NamesImageParts.{Holds};
ghost use Rattle.virtiofs_map.specs.Rule.{MappingRule};
ghost use Rattle.virtiofs_map.specs.RuleText.{SaysRules};

pub(crate) mod header;
mod list;
pub(crate) mod stored;
pub(crate) mod write;

pub use super::listed::cut_name;
use crate::xattrmap::scopes::Side;
use crate::xattrmap::{XattrMap, XattrMapRef};
pub use list::{put_name, write_list};
use std::alloc::Allocator;

/// What an image decides for a name.
#[derive(Clone, Copy, PartialEq, Eq, Debug)]
pub enum Decision<'m> {
    /// The bytes do not begin and end as an image of a map does. For others that are no image, any
    /// decision is possible.
    NoMap,
    /// No rule fits the name.
    Undecided,
    /// The name passes unchanged, or is listed unchanged.
    Okay,
    /// The name passes with this prepend before it, or is listed without it.
    Prefix(&'m [u8]),
    /// The name is denied, or hidden.
    Bad,
    /// The name is unsupported, or hidden.
    Unsupported,
}

/// What came of writing an image.
#[derive(Clone, Copy, PartialEq, Eq, Debug)]
pub enum ImageWritten {
    /// The image has this many bytes, and is at the beginning.
    Written(usize),
    /// Nothing was written: the image needs a buffer of this many bytes.
    NoRoom(usize),
    /// Nothing was written: an image has 281474976710655 bytes at most.
    TooLong,
}

/// What came of writing a list.
#[derive(Clone, Copy, PartialEq, Eq, Debug)]
pub enum ListWritten {
    /// The bytes do not begin and end as an image of a map does. For others that are no image, any
    /// result is possible.
    NoMap,
    /// No rule decides one of the names.
    Undecided,
    /// The list has this many bytes, and is at the beginning.
    Written(usize),
    /// The list needs a buffer of this many bytes.
    NoRoom(usize),
}

/// The most bytes that the image of a map has that was read from a text of that many bytes.
///
/// If the result does not fit into `usize`, it is [`usize::MAX`]. No text can be that long.
#[tactic(auto, using(crate::proofs::xattrmap::image::ImageLengthLemmas::image_enough))]
pub fn most_bytes(text_len: usize) -> usize
    ensures value { result ≡ min (512 + 64 * text_len) 18446744073709551615 }
    ensures enough { (text : List ℕ) (rules : List MappingRule) → IsUtf8 text
        → SaysRules (chars text) rules → length text ≤ text_len
        → min (image_length rules) 18446744073709551615 ≤ result }
{
    text_len.saturating_mul(64).saturating_add(512)
}

impl<A: Allocator> XattrMap<A> {
    /// How many bytes an image of the map has; `None` if these are more than an image may have,
    /// which is 281474976710655.
    pub fn image_len(&self) -> Option<usize>
        ensures count { IfSome result (HasImage self.now) }
        ensures none { IfNone result (longest_image < image_length self.now) }
    {
        Some(self.bytes.len())
    }

    /// Writes an image of the map to the beginning of `out`, and leaves the rest unchanged. It does
    /// not allocate. If `out` is too short, nothing is written.
    pub fn write_image(&self, out: &mut [u8]) -> ImageWritten
        ensures { WritesImage self.now out.old out.new result }
    {
        let image = self.bytes.as_slice();
        if out.len() < image.len() {
            return ImageWritten::NoRoom(image.len());
        }
        put(out, 0, image);
        ImageWritten::Written(image.len())
    }
}

/// Writes bytes at a place.
fn put(out: &mut [u8], at: usize, bytes: &[u8])
    requires room { at + length bytes.now ≤ length out.old }
    ensures holds { (so_far first : List ℕ) → Holds so_far first out.old → at ≡ length so_far
        → Holds (so_far ++ bytes.now) first out.new }
    ensures same { length out.new ≡ length out.old }
{
    out[at..at + bytes.len()].copy_from_slice(bytes);
}

/// Looks up a name of that side in an image: what the first rule that fits it does. It does not
/// allocate. No pattern holds a zero, so a name is decided as what stands before its first zero.
///
/// The result is `NoMap` if the bytes do not begin and end as an image does. For others that are no
/// image, any result is possible; a prepend in it is then some part of these bytes.
#[inline(always)]
pub fn decide<'m>(image: &'m [u8], side: Side, name: &[u8]) -> Decision<'m>
    ensures closed { IsNoImage image.now → result ≡ Decision.NoMap }
    ensures says { (rules : List MappingRule) → IsImage rules image.now
        → Says side rules name.now result }
    ensures before_zero { (rules : List MappingRule) → IsImage rules image.now
        → Says side rules (before_first (λ byte. byte == 0) name.now) result }
{
    match XattrMapRef::of(image) {
        Some(map) => {
            let (decision, _) = map.decide(side, name);
            decision
        }
        None => Decision::NoMap,
    }
}

/// Whether no name is ever left without a rule; `None` if the bytes do not begin and end as an image
/// does. For others that are no image, the result has no meaning. It does not allocate.
pub fn is_terminated(image: &[u8]) -> Option<bool>
    ensures closed { IsNoImage image.now → IsNone result }
    ensures terminated { (rules : List MappingRule) → IsImage rules image.now
        → IsSomeAnd result (λ terminated. IsTrue terminated ↔ Terminated rules) }
{
    let map = XattrMapRef::of(image)?;
    Some(map.is_terminated())
}
