//! What all numbers become, as pieces that follow one another.
ghost use Rattle.std.specs.Prelude.{◌≡◌, List};
ghost use Rattle.std.specs.Iterator.{Drains};
ghost use Rattle.virtiofs_map.specs.Build.{Accepted};
ghost use Rattle.virtiofs_map.specs.Pieces.{IsStretch, IsPiece, ArePieces, GivesPiece};
ghost use Rattle.virtiofs_map.specs.declared.soft_idmap.piece.Piece.{Piece};

use super::IdMap;
use super::entry::Direction;
use super::joins::join;
use super::piece::Piece;
use super::stretches::stretch;
use crate::id_types::{GuestId, HostId};
use std::alloc::{Allocator, Global};
use std::iter::FusedIterator;
use std::marker::Model;

impl<Guest: GuestId<HostType = Host>, Host: HostId<GuestType = Guest>, A: Allocator> IdMap<
    Guest,
    Host,
    A,
> {
    /// The pieces of all numbers from 0 to 4294967295, in order: what becomes of each number.
    ///
    /// The pieces follow one another without a gap, and each is as long as it can be, so no two
    /// neighbours are one piece. Of a map whose specifications act in that direction m times, on one
    /// number or more each, there are at most 2 m + 1. It takes no memory.
    pub fn pieces(&self, direction: Direction) -> Pieces<'_, Guest, Host, A>
        ensures accepted { Accepted self.now }
        ensures left { result ≡ record { specs = self.now; direction = direction; next = 0 } }
        // What the iterator gives in all.
        ensures all { (pieces : List Piece) → Drains GivesPiece result pieces
            → ArePieces self.now direction pieces }
    {
        self.pieces_from(direction, 0)
    }

    /// The pieces of the numbers from `first` on, of which the first one begins there.
    pub fn pieces_from(&self, direction: Direction, first: u32) -> Pieces<'_, Guest, Host, A>
        ensures accepted { Accepted self.now }
        ensures left { result ≡ record { specs = self.now; direction = direction; next = first } }
    {
        let _ = &self.words;
        Pieces {
            map: self,
            direction,
            next: u64::from(first),
        }
    }

    /// The numbers from `first` on that one range decides, or none, as a piece. The numbers after it
    /// may be of that piece too. It takes as long as a lookup does.
    pub fn stretch(&self, direction: Direction, first: u32) -> Piece
        ensures accepted { Accepted self.now }
        ensures first { result.first ≡ first }
        ensures stretch { IsStretch self.now direction result }
    {
        stretch(&self.ranges(direction), first)
    }

    /// The longest piece that begins at a number.
    fn piece_from(&self, direction: Direction, first: u32) -> Piece
        ensures first { result.first ≡ first }
        ensures piece { IsPiece self.now direction result }
    {
        let mut piece = self.stretch(direction, first);
        while piece.last < u32::MAX {
            let more = self.stretch(direction, piece.last + 1);
            let Some(longer) = join(piece, more) else {
                return piece;
            };
            piece = longer;
        }
        piece
    }
}

/// The pieces of a map in one direction, as [`IdMap::pieces`] gives them. Contracts see the
/// specifications of the map, the direction, and the first number of which no piece was given yet.
///
/// After the piece that ends with 4294967295 it gives `None` again and again.
#[derive(Drop)]
pub struct Pieces<
    'm,
    Guest: GuestId<HostType = Host>,
    Host: HostId<GuestType = Guest>,
    A: Allocator = Global,
> {
    map: &'m IdMap<Guest, Host, A>,
    direction: Direction,
    next: u64,
}

impl<'m, Guest: GuestId<HostType = Host>, Host: HostId<GuestType = Guest>, A: Allocator> Model
    for Pieces<'m, Guest, Host, A> {
    ghost use Rattle.std.specs.Prelude.{◌≤◌};
    ghost use Rattle.virtiofs_map.specs.Pieces.{PiecesLeft};

    ghost Value = { PiecesLeft };

    ghost view = { λ pieces. record {
      specs = pieces.map.now;
      direction = pieces.direction;
      next = pieces.next;
    } };

    ghost invariant = { λ pieces. pieces.next ≤ 4294967296 };
}

impl<'m, Guest: GuestId<HostType = Host>, Host: HostId<GuestType = Guest>, A: Allocator> Iterator
    for Pieces<'m, Guest, Host, A> {
    ghost use Rattle.virtiofs_map.specs.Pieces.{GivesPiece, numbers_left};

    type Item = Piece;

    // A call gives the piece that begins at the first number that is left, and leaves the numbers
    // after it. Where none is left it gives nothing, and none is left again.
    ghost next_gives = { GivesPiece };

    ghost remaining = { numbers_left };

    fn next(&mut self) -> Option<Piece> {
        let Ok(first) = u32::try_from(self.next) else {
            return None;
        };
        let piece = self.map.piece_from(self.direction, first);
        self.next = u64::from(piece.last) + 1;
        Some(piece)
    }
}

impl<
    'm,
    Guest: GuestId<HostType = Host>,
    Host: HostId<GuestType = Guest>,
    A: Allocator,
> FusedIterator for Pieces<'m, Guest, Host, A> {}
