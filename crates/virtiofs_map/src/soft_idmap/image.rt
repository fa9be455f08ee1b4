//! A map of ids as plain numbers: an image, which any number of threads may read at once.
//!
//! [`write_image`] writes an image into the caller's memory, and [`look_up`] only reads it. As a
//! map it is an [`IdMapRef`]. What the numbers mean is private, and may change with the version of
//! the library.
ghost use Rattle.std.specs.Prelude.{◌≡◌, ℕ, ◌+◌, ◌*◌, ◌≤◌, List, length, min, Option, IfOk, IfErr, OnOk, OnErr};
ghost use Rattle.std.specs.Prelude.{MatchResult, ⊤};
ghost use Rattle.virtiofs_map.specs.Build.{Accepted, BuildFault, HasFirstFault, build_fault_of};
ghost use Rattle.virtiofs_map.specs.Image.{IsImage, IsNoImage, image_length, IsWritten};
ghost use Rattle.virtiofs_map.specs.ImageAnswer.{SaysValue, SaysIn, SaysLeadsBack};
ghost use Rattle.virtiofs_map.specs.Mapping.{Becomes};
ghost use Rattle.virtiofs_map.specs.MappingLaws.{IsMappedBothWays};
ghost use Rattle.virtiofs_map.specs.Refusal.{IsOutOfMemory, OutOfMemoryOr};
ghost use Rattle.virtiofs_map.specs.declared.cmdline.IdMap.{IdMap as Specification};

use super::build::accepted_ranges;
pub use super::row::Answer;
use super::words::IdMapRef;
use super::write::write_words;
use super::{Direction, IdMapBuildError, lookup};
use crate::Steps;
use crate::cmdline::IdMap;
use std::alloc::Allocator;

/// The most words that the image of a map of that many specifications has.
///
/// If the result does not fit into `usize`, it is [`usize::MAX`]. No list can be that long.
pub fn most_words(specs: usize) -> usize
    ensures { result ≡ min (4 + 8 * specs) 18446744073709551615 }
{
    specs.saturating_mul(8).saturating_add(4)
}

/// Writes the image of the map of a list of specifications, and says how many words it has.
///
/// If `words` is shorter than that, nothing is written. If it is longer, the rest of it is
/// unchanged. The faults of a list, and the order in which they are found, are those of
/// [`super::IdMap::try_from`]. If an allocation fails, the error is
/// [`IdMapBuildError::OutOfMemory`].
#[tactic(auto, using(crate::proofs::WrittenLemmas::image_written))]
pub fn write_image<A: Allocator + Copy>(
    alloc: A,
    specs: &[IdMap],
    words: &mut [u32],
) -> Result<usize, IdMapBuildError>
    ensures accepted { OnOk result (Accepted specs.now) }
    ensures len { IfOk result (λ len. len ≡ image_length specs.now) }
    ensures bound { IfOk result (λ len. len ≤ 4 + 8 * length specs.now) }
    ensures written { OnOk result (IsWritten specs.now words.old words.new) }
    ensures complete { Accepted specs.now → MatchResult result (λ _. ⊤)
        (λ e. IsOutOfMemory (build_fault_of e)) }
    ensures refused { IfErr result (λ e.
        OutOfMemoryOr (build_fault_of e) (HasFirstFault specs.now)) }
    ensures faulty { (fault : BuildFault) → HasFirstFault specs.now fault
        → MatchResult result (λ _. ⊥)
        (λ e. OutOfMemoryOr (build_fault_of e) (λ told. told ≡ fault)) }
    ensures keeps { OnErr result (words.new ≡ words.old) }
{
    let (guests, hosts) = accepted_ranges(alloc, specs)?;
    let len = 4 + 4 * guests.len() + 4 * hosts.len();
    if words.len() < len {
        return Ok(len);
    }
    let (front, _) = words.split_at_mut(len);
    write_words(front, &guests, &hosts);
    Ok(len)
}

/// Looks up a number in an image, in the given direction.
///
/// Any words may be passed. If they do not begin with the first word of an image of this version,
/// or if it does not stand behind the ranges that they announce, the result is
/// [`Answer::NoImage`]. It does not allocate.
#[inline(always)]
pub fn look_up(words: &[u32], direction: Direction, n: u32) -> Answer
    ensures says { (specs : List Specification) → IsImage specs words.now
        → SaysIn specs direction n result }
    ensures exact { (specs : List Specification) (value : Option ℕ) → IsImage specs words.now
        → Becomes specs direction n value → SaysValue value result }
    ensures leads_back { (specs : List Specification) → IsImage specs words.now
        → IsMappedBothWays specs direction n → SaysLeadsBack specs direction n result }
    ensures no_image { IsNoImage words.now → result ≡ Answer.NoImage }
{
    let Some(map) = IdMapRef::of(words) else {
        return Answer::NoImage;
    };
    lookup::look_up(&map.ranges(direction), n, &mut Steps::new())
}
