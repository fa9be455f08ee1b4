//! What ids of the guest become on the host and then in the guest again.
ghost use Rattle.std.specs.Prelude.{◌≡◌, ◌≤◌};
ghost use Rattle.virtiofs_id_audit.specs.IdAuditParts.{ReturnsBy};
ghost use Rattle.virtiofs_map.specs.Build.{Accepted};
ghost use Rattle.virtiofs_map.specs.Pieces.{IsNamed};

use std::alloc::Allocator;
use virtiofs_map::id_types::{GuestId, HostId};
use virtiofs_map::soft_idmap::{Direction, IdMap, Piece};

/// The numbers from `n` on with what they come back as, as far as one piece says it: what each
/// becomes on the host becomes that in the guest.
pub(crate) fn round_trip<
    Guest: GuestId<HostType = Host>,
    Host: HostId<GuestType = Guest>,
    A: Allocator,
>(map: &IdMap<Guest, Host, A>, n: u32) -> Piece
    ensures accepted { Accepted map.now }
    ensures first { result.first ≡ n }
    ensures order { n ≤ result.last }
    ensures named { IsNamed result.becomes result.first result.last }
    ensures returns { ReturnsBy map.now result }
{
    let there = map.stretch(Direction::GuestToHost, n);
    let Some(host) = there.start() else {
        return there;
    };
    let back = map.stretch(Direction::HostToGuest, host);
    let Some(to) = back.start() else {
        unreachable!();
    };
    if !there.is_one_to_one() {
        return Piece::all_to_one(n, there.last, to);
    }
    let last = n + (there.last - n).min(back.last - host);
    if back.is_one_to_one() {
        Piece::one_to_one(n, last, to)
    } else {
        Piece::all_to_one(n, last, to)
    }
}
