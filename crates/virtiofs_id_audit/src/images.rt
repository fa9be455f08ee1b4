//! Which ids of the host a guest reaches, and which it reaches again.
ghost use Rattle.std.specs.Prelude.{◌≡◌, ◌↔◌, ℕ, ◌+◌, ◌≤◌, List, All, IfOk, OnOk};
ghost use Rattle.std.specs.List.Sorted.{IsNonDecreasingBy};
ghost use Rattle.virtiofs_id_audit.specs.IdAudit.{Hold, AreRuns};
ghost use Rattle.virtiofs_id_audit.specs.IdAuditParts.{IsSpan, times, CountsGuests, AreImages};
ghost use Rattle.virtiofs_map.specs.Build.{Accepted};
ghost use Rattle.virtiofs_map.specs.Pieces.{IsNamed, IsPiece};
ghost use Rattle.virtiofs_map.specs.declared.cmdline.IdMap.{IdMap as Specification};
ghost use Rattle.virtiofs_map.specs.declared.soft_idmap.entry.Direction.TheVariants.{GuestToHost};

use crate::cuts::{push_between, without};
use crate::spans::Span;
use std::alloc::{AllocError, Allocator};
use virtiofs_map::id_types::{GuestId, HostId};
use virtiofs_map::soft_idmap::{Direction, IdMap, Piece};

/// Adds what the numbers of a piece become, 4294967295 left out: a span, and the same span again
/// where two numbers become one.
fn push_image<A: Allocator>(images: &mut Vec<Span, A>, piece: Piece) -> Result<(), AllocError>
    requires order { piece.first ≤ piece.last }
    requires named { IsNamed piece.becomes piece.first piece.last }
    ensures { OnOk result ((specs : List Specification) (low host : ℕ) → Accepted specs
        → IsPiece specs GuestToHost piece → low ≤ piece.first
        → CountsGuests specs low piece.first host (times images.old.items host)
        → CountsGuests specs low (piece.last + 1) host (times images.new.items host)) }
{
    let Some(to) = piece.start() else {
        return Ok(());
    };
    let last = piece.last.min(u32::MAX - 1);
    if last < piece.first {
        return Ok(());
    }
    if piece.is_one_to_one() {
        let above = last - piece.first;
        images.push(Span {
            first: to,
            last: to + above,
        })?;
        return Ok(());
    }
    let image = Span {
        first: to,
        last: to,
    };
    images.push(image)?;
    if piece.first < last {
        images.push(image)?;
    }
    Ok(())
}

/// What the pieces of a map become.
pub(crate) fn images_of<
    Guest: GuestId<HostType = Host>,
    Host: HostId<GuestType = Guest>,
    A: Allocator,
>(alloc: A, map: &IdMap<Guest, Host, A>) -> Result<Vec<Span, A>, AllocError>
    ensures { IfOk result (λ images. AreImages map.now images.items) }
{
    let mut images = Vec::new(alloc);
    for piece in map.pieces(Direction::GuestToHost) {
        push_image(&mut images, piece)?;
    }
    Ok(images)
}

/// Those of the spans that have an id, in the order of their first ids.
fn in_order<A: Allocator>(alloc: A, spans: &[Span]) -> Result<Vec<Span, A>, AllocError>
    ensures spans { IfOk result (λ sorted. All IsSpan sorted.items) }
    ensures firsts { IfOk result (λ sorted.
        IsNonDecreasingBy (λ span. span.first) sorted.items) }
    ensures times { IfOk result (λ sorted. (id : ℕ)
        → times sorted.items id ≡ times spans.now id) }
{
    let mut sorted = Vec::new(alloc);
    for span in spans {
        if span.last < span.first {
            continue;
        }
        sorted.push(*span)?;
    }
    sorted.sort_unstable_by_key(|span| span.first);
    Ok(sorted)
}

/// The ids that two of the images have, or more.
pub(crate) fn reached_again<A: Allocator + Copy>(
    alloc: A,
    images: &[Span],
) -> Result<Vec<Span, A>, AllocError>
    ensures { IfOk result (λ again. (id : ℕ)
        → Hold again.items id ↔ (2 ≤ times images.now id)) }
{
    let sorted = in_order(alloc, images)?;
    let mut again = Vec::new(alloc);
    let mut reached = 0u64;
    for image in &sorted {
        let end = u64::from(image.last) + 1;
        push_between(&mut again, u64::from(image.first), reached.min(end))?;
        reached = reached.max(end);
    }
    Ok(again)
}

/// Each id, and 4294967295.
const EACH: Span = Span {
    first: 0,
    last: u32::MAX,
};

/// The ids of the spans, as few spans in order.
pub(crate) fn merged<A: Allocator + Copy>(
    alloc: A,
    spans: &[Span],
) -> Result<Vec<Span, A>, AllocError>
    ensures runs { IfOk result (λ merged. AreRuns merged.items) }
    ensures hold { IfOk result (λ merged. (id : ℕ) → Hold merged.items id ↔ Hold spans.now id) }
{
    let sorted = in_order(alloc, spans)?;
    let free = without(alloc, EACH, &sorted)?;
    let merged = without(alloc, EACH, &free)?;
    Ok(merged)
}
