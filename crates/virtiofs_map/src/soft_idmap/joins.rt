//! A piece and the numbers after it that are of the same piece.
ghost use Rattle.std.specs.Prelude.{◌≡◌, ◌+◌, ◌≤◌, IfSome, IfNone};
ghost use Rattle.virtiofs_map.specs.PieceParts.{CanJoin, Joins};
ghost use Rattle.virtiofs_map.specs.Pieces.{IsNamed};

use super::piece::Piece;

/// The piece with as many numbers of the one after it as it can have, and one at least; `None` where
/// it can have none.
pub(crate) fn join(piece: Piece, more: Piece) -> Option<Piece>
    requires follows { more.first ≡ piece.last + 1 }
    requires order { piece.first ≤ piece.last }
    requires named { IsNamed piece.becomes piece.first piece.last }
    requires more_order { more.first ≤ more.last }
    requires more_named { IsNamed more.becomes more.first more.last }
    ensures some { IfSome result (Joins piece more) }
    ensures none { IfNone result (¬ CanJoin piece more) }
{
    let Some(to) = piece.start() else {
        if more.start().is_some() {
            return None;
        }
        return Some(Piece {
            last: more.last,
            ..piece
        });
    };
    let Some(next) = more.start() else {
        return None;
    };
    let above = u64::from(to) + u64::from(more.first - piece.first);
    if piece.is_one_to_one() && u64::from(next) == above {
        let last = if more.is_one_to_one() {
            more.last
        } else {
            more.first
        };
        return Some(Piece::one_to_one(piece.first, last, to));
    }
    if piece.is_all_to_one() && next == to {
        let last = if more.is_all_to_one() {
            more.last
        } else {
            more.first
        };
        return Some(Piece::all_to_one(piece.first, last, to));
    }
    None
}
