//! What ids inside the namespace of a daemon are outside it, and back.
ghost use Rattle.std.specs.Prelude.{◌↔◌, ℕ, ◌≤◌, IfOk, IfSome, OnOk, MatchOption};
ghost use Rattle.virtiofs_id_audit.specs.IdAudit.{Has};
ghost use Rattle.virtiofs_id_audit.specs.Outside.{MovesBy, HasIf, AreMoved};
ghost use Rattle.virtiofs_id_audit.specs.OutsideParts.{Moves, AddsMoved};

use crate::spans::Span;
use std::alloc::{AllocError, Allocator};
use virtiofs_map::idmap::UidMap;

/// Which way ids are moved.
#[derive(Clone, Copy)]
pub enum Way {
    /// From outside the namespace into it.
    Inwards,
    /// From inside the namespace out of it.
    Outwards,
}

/// `count` ids from `from` on are moved to as many from `to` on. What those of the span are then.
fn moved(from: u32, to: u32, count: u32, span: Span) -> Option<Span>
    ensures moves { (moved : ℕ) → HasIf result moved
        ↔ ((id : ℕ) × Has span id × Moves from to count id moved) }
    ensures order { IfSome result (λ there. there.first ≤ there.last) }
{
    let from = u64::from(from);
    let to = u64::from(to);
    let begin = u64::from(span.first).max(from);
    let of_range = from + u64::from(count);
    let of_ids = ((from + 4294967296) - to).min(4294967296);
    let past = (u64::from(span.last) + 1).min(of_range).min(of_ids);
    if past <= begin {
        return None;
    }
    let first = (to + (begin - from)) as u32;
    let last = (to + (past - 1 - from)) as u32;
    Some(Span { first, last })
}

/// What those ids of the span are that the range moves.
pub fn moved_by(way: Way, range: &UidMap, span: Span) -> Option<Span>
    ensures moves { (moved : ℕ) → HasIf result moved
        ↔ ((id : ℕ) × Has span id × MovesBy way range.now id moved) }
    ensures order { IfSome result (λ there. there.first ≤ there.last) }
{
    match way {
        Way::Outwards => moved(range.inside_uid, range.outside_uid, range.count, span),
        Way::Inwards => moved(range.outside_uid, range.inside_uid, range.count, span),
    }
}

/// What the id is, if the range moves it.
pub fn id_moved(way: Way, range: &UidMap, id: u32) -> Option<u32>
    ensures { MatchOption result ((moved : ℕ) → ¬ MovesBy way range.now id moved)
        (MovesBy way range.now id) }
{
    let one = Span {
        first: id,
        last: id,
    };
    let Some(there) = moved_by(way, range, one) else {
        return None;
    };
    Some(there.first)
}

/// Adds what those ids of the span are that the ranges move.
fn push_moved<A: Allocator>(
    spans: &mut Vec<Span, A>,
    way: Way,
    ranges: &[UidMap],
    span: Span,
) -> Result<(), AllocError>
    ensures { OnOk result (AddsMoved spans.old.items way ranges.now span spans.new.items) }
{
    for range in ranges {
        let Some(one) = moved_by(way, range, span) else {
            continue;
        };
        spans.push(one)?;
    }
    Ok(())
}

/// What the ids of the spans are, moved by the ranges of a namespace.
pub fn moved_all<A: Allocator + Copy>(
    alloc: A,
    way: Way,
    ranges: &[UidMap],
    spans: &[Span],
) -> Result<Vec<Span, A>, AllocError>
    ensures { IfOk result (λ all. AreMoved way ranges.now spans.now all.items) }
{
    if ranges.is_empty() {
        return Ok(spans.to_vec(alloc)?);
    }
    let mut all = Vec::new(alloc);
    for span in spans {
        push_moved(&mut all, way, ranges, *span)?;
    }
    Ok(all)
}
