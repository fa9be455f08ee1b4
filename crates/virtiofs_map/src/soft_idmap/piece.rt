//! Numbers that follow one another, and what becomes of them.
ghost use Rattle.std.specs.Prelude.{◌≡◌, ◌+◌, ◌-◌, ◌≤◌, Some, None};
ghost use Rattle.virtiofs_map.specs.PieceParts.{is_all_to_one};
ghost use Rattle.virtiofs_map.specs.Pieces.{value_in, IsMade, is_one_to_one};

/// What becomes of the numbers of a [`Piece`].
///
/// It is named for what they become, and not for the specifications that say so: a squash of one
/// number moves it, and a map of numbers onto themselves keeps them.
#[derive(Clone, Copy, Debug, PartialEq, Eq)]
pub enum Outcome {
    /// Each number stays itself.
    Kept,
    /// Each number becomes the one that is as far above `to` as it is above the first number of the
    /// piece. The first number does not stay itself.
    OneToOne {
        /// What the first number becomes.
        to: u32,
    },
    /// All numbers become `to`, and they are two or more.
    AllToOne {
        /// What each number becomes.
        to: u32,
    },
    /// The use of each number fails.
    Forbidden,
}

/// Numbers that follow one another, and what becomes of them.
#[derive(Clone, Copy, Debug, PartialEq, Eq)]
pub struct Piece {
    /// The first number.
    pub first: u32,
    /// The last number: the first one, or a greater one.
    pub last: u32,
    /// What becomes of them.
    pub becomes: Outcome,
}

impl Piece {
    /// The piece of numbers of which each becomes the one that is as far above `to`.
    pub fn one_to_one(first: u32, last: u32, to: u32) -> Piece
        requires fits { to + (last - first) ≤ 4294967295 }
        ensures { IsMade first last (λ n. Some (to + (n - first))) result }
    {
        let becomes = if to == first {
            Outcome::Kept
        } else {
            Outcome::OneToOne { to }
        };
        Piece {
            first,
            last,
            becomes,
        }
    }

    /// The piece of numbers that all become `to`.
    pub fn all_to_one(first: u32, last: u32, to: u32) -> Piece
        requires order { first ≤ last }
        ensures { IsMade first last (λ n. Some to) result }
    {
        if first == last {
            return Piece::one_to_one(first, last, to);
        }
        Piece {
            first,
            last,
            becomes: Outcome::AllToOne { to },
        }
    }

    /// What the first number becomes; `None` where its use fails.
    pub fn start(self) -> Option<u32>
        ensures { result ≡ value_in self self.first }
    {
        match self.becomes {
            Outcome::Kept => Some(self.first),
            Outcome::OneToOne { to } | Outcome::AllToOne { to } => Some(to),
            Outcome::Forbidden => None,
        }
    }

    /// Whether its numbers become numbers one after the other.
    pub fn is_one_to_one(self) -> bool
        ensures { result ≡ is_one_to_one self.becomes }
    {
        matches!(self.becomes, Outcome::Kept | Outcome::OneToOne { .. })
    }

    /// Whether its numbers all become one number.
    pub(crate) fn is_all_to_one(self) -> bool
        ensures { result ≡ is_all_to_one self.becomes self.first self.last }
    {
        match self.becomes {
            Outcome::Kept | Outcome::OneToOne { .. } => self.first == self.last,
            Outcome::AllToOne { .. } => true,
            Outcome::Forbidden => false,
        }
    }
}
