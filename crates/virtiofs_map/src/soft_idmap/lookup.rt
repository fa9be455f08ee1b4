//! What a number becomes by the ranges of a direction, and the search for one that may cover it.
//!
//! The search takes as many turns for one number as for another, and no turn branches on what it
//! read: a branch that is predicted wrongly costs more than a turn.
ghost use Rattle.std.specs.Prelude.{◌+◌, ◌<◌, ◌≤◌, List, min};
ghost use Rattle.virtiofs_map.specs.ImageAnswer.{SaysIn};
ghost use Rattle.virtiofs_map.specs.LookupSteps.{binary_digits};
ghost use Rattle.virtiofs_map.specs.Steps.{CountsBetween};
ghost use Rattle.virtiofs_map.specs.WordParts.{HasRanges, Searches};
ghost use Rattle.virtiofs_map.specs.declared.cmdline.IdMap.{IdMap as Specification};
ghost use Rattle.virtiofs_map.specs.declared.soft_idmap.entry.Direction.{Direction};

use super::row::Answer;
use super::words::{Last, Ranges};
use crate::Steps;

/// The index of the last range that begins at or below a number, or of the first range where none
/// does: no other range can cover the number.
///
/// Each reading of a range is a step. With one range there is nothing to search, and it is read.
#[inline(always)]
#[tactic(auto, using(crate::proofs::WordLemmas::searched))]
pub(crate) fn last_from(ranges: &Ranges<'_>, n: u32, steps: &mut Steps) -> Last
    requires { 1 ≤ ranges.now.count }
    ensures within { result.index < ranges.now.count }
    ensures found { Searches ranges.now n result.index (result.index + 1) }
    ensures steps { CountsBetween 1 (binary_digits ranges.now.count) steps.old steps.new }
{
    if ranges.len() == 1 {
        let _ = ranges.read(0, steps);
        return Last::first();
    }
    let mut last = Last::first();
    let mut size = ranges.len();
    let mut taken = Steps::new();
    while size > 1 {
        let half = size / 2;
        let range = ranges.read(last.index() + half, &mut taken);
        last = last.or(range, n);
        size -= half;
    }
    steps.add(&taken);
    last
}

/// What the ranges say of a number. With no range the number stays itself.
#[inline(always)]
#[tactic(auto, using(crate::proofs::WordLemmas::looked_up))]
pub(crate) fn look_up(ranges: &Ranges<'_>, n: u32, steps: &mut Steps) -> Answer
    ensures says { (specs : List Specification) (direction : Direction)
        → HasRanges specs direction ranges.now → SaysIn specs direction n result }
    ensures steps { CountsBetween (min 1 ranges.now.count) (binary_digits ranges.now.count)
        steps.old steps.new }
{
    if ranges.len() == 0 {
        steps.add(&Steps::new());
        return Answer::Becomes(n);
    }
    let last = last_from(ranges, n, steps);
    ranges.answer_by(last, n)
}
