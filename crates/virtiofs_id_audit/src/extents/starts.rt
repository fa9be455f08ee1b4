//! At which ids of the guest a run of ids that come back may begin.
ghost use Rattle.std.specs.Prelude.{IfOk};
ghost use Rattle.virtiofs_id_audit.specs.IdAuditParts.{AreStarts};
ghost use Rattle.virtiofs_id_audit.specs.IdAudit.{AreRuns};

use crate::images::merged;
use crate::spans::Span;
use std::alloc::{AllocError, Allocator};
use virtiofs_map::id_types::{GuestId, HostId};
use virtiofs_map::soft_idmap::{Direction, IdMap};

/// What the first id of each piece of the host becomes, as spans in order.
pub(crate) fn starts_of<
    Guest: GuestId<HostType = Host>,
    Host: HostId<GuestType = Guest>,
    A: Allocator + Copy,
>(alloc: A, map: &IdMap<Guest, Host, A>) -> Result<Vec<Span, A>, AllocError>
    ensures runs { IfOk result (λ starts. AreRuns starts.items) }
    ensures starts { IfOk result (λ starts. AreStarts map.now starts.items) }
{
    let mut starts = Vec::new(alloc);
    for piece in map.pieces(Direction::HostToGuest) {
        let Some(start) = piece.start() else {
            continue;
        };
        starts.push(Span {
            first: start,
            last: start,
        })?;
    }
    let merged = merged(alloc, &starts)?;
    Ok(merged)
}
