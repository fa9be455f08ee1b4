//! The ranges of a namespace, as Linux shows them in `/proc/PID/uid_map` and `/proc/PID/gid_map`.
ghost use Rattle.std.specs.Prelude.{◌≡◌, ◌<◌, ◌∷◌, ℕ, List, [], IfOk, IfErr, IfSome, IfNone, MatchOption, MatchResult, length};
ghost use Rattle.virtiofs_map.specs.Refusal.{IsOutOfMemory, OutOfMemoryOr};
ghost use Rattle.virtiofs_map.specs.declared.idmap.UidMap.{UidMap};
ghost use Rattle.virtiofs_host.specs.IdMapText.{SaysRange, BeginsRange, SaysRanges, HasWrongLine};
ghost use Rattle.virtiofs_host.specs.CutParts.{words_left};
ghost use Rattle.virtiofs_host.specs.Sequence.{wrong_place};

use crate::cut::cut;
use crate::decimal::decimal;
use crate::error::ReadError;
use std::alloc::Allocator;
use virtiofs_map::idmap::UidMap;

/// The next word of a line, and what follows the space after it.
fn next_word<'a>(rest: Option<&'a [u8]>) -> Option<(&'a [u8], Option<&'a [u8]>)>
    ensures { MatchOption result (words_left rest.entry ≡ [])
        (λ p. words_left rest.entry ≡ p.0.now ∷ words_left p.1) }
{
    let mut left = rest;
    while let Some(text) = left {
        let (word, after) = cut(text, b' ');
        if !word.is_empty() {
            return Some((word, after));
        }
        left = after;
    }
    None
}

/// The range that a line says.
fn range_of(line: &[u8]) -> Option<UidMap>
    ensures says { IfSome result (SaysRange line.now) }
    ensures none { IfNone result ((range : UidMap) → ¬ SaysRange line.now range) }
{
    let (inside, rest) = next_word(Some(line))?;
    let (outside, rest) = next_word(rest)?;
    let (count, rest) = next_word(rest)?;
    if next_word(rest).is_some() {
        return None;
    }
    Some(UidMap {
        inside_uid: decimal(inside)?,
        outside_uid: decimal(outside)?,
        count: decimal(count)?,
    })
}

/// The range that the first line of a text says, and what follows that line.
fn first_range(text: &[u8]) -> Option<(UidMap, &[u8])>
    ensures begins { IfSome result (λ p. BeginsRange text.now p.0 p.1.now) }
    ensures shorter { IfSome result (λ p. length p.1.now < length text.now) }
    ensures none { IfNone result ((range : UidMap) (rest : List ℕ)
        → ¬ BeginsRange text.now range rest) }
{
    let (line, rest) = cut(text, b'\n');
    let rest = rest?;
    let range = range_of(line)?;
    Some((range, rest))
}

/// Reads the ranges of a namespace, of users or of groups, from the content of
/// `/proc/PID/uid_map` or `/proc/PID/gid_map`. Each line has three numbers: the first id inside the
/// namespace, the first id outside it, and how many ids there are. Spaces stand between them, and
/// maybe before and after them. A line feed ends each line.
///
/// # Errors
///
/// The place of the first line, counted from 0, that says no range or that no line feed ends; or a
/// request for memory was refused.
#[tactic(auto, using(crate::proofs::IdMapLemmas::ranges_read))]
pub fn read_id_map<A: Allocator>(alloc: A, text: &[u8]) -> Result<Vec<UidMap, A>, ReadError>
    ensures read { IfOk result (λ ranges. SaysRanges text.now ranges.items) }
    ensures complete { (ranges : List UidMap) → SaysRanges text.now ranges
        → MatchResult result (λ told. told.items ≡ ranges) (λ e. IsOutOfMemory (wrong_place e)) }
    ensures refused { IfErr result (λ e.
        OutOfMemoryOr (wrong_place e) (HasWrongLine text.now)) }
    ensures faulty { (place : ℕ) → HasWrongLine text.now place
        → MatchResult result (λ _. ⊥)
        (λ e. OutOfMemoryOr (wrong_place e) (λ told. told ≡ place)) }
{
    let mut ranges = Vec::new(alloc);
    let mut rest = text;
    while !rest.is_empty() {
        let Some((range, after)) = first_range(rest) else {
            return Err(ReadError::Wrong(ranges.len()));
        };
        ranges.push(range)?;
        rest = after;
    }
    Ok(ranges)
}
