//! The plain numbers that ids are made of, and the distances between ids.
ghost use Rattle.std.specs.Prelude.{◌≡◌, ℕ, ◌≤◌, ◌↔◌, IsTrue, Some};
ghost use Rattle.std.specs.Ordering.{nat_cmp};

/// A type of plain numbers from which ids can be made. It has exactly one value for each `u32`.
pub trait IdNumber: Copy + Eq + Ord {
    // The number that contracts see.
    ghost number: { Self → ℕ };

    /// The number.
    fn to_u32(self) -> u32
        ensures { result ≡ number self };

    /// The value whose number is `n`.
    fn from_u32(n: u32) -> Self
        ensures { number result ≡ n };

    /// Law: no number is above 4294967295.
    fn bounded(self)
        ensures { number self ≤ 4294967295 };

    /// Law: two values with the same number are equal, so that `from_u32` undoes `to_u32`.
    fn identified(self, other: Self)
        ensures { number self ≡ number other → self ≡ other };

    /// Law: `==`, `partial_cmp` and `cmp` are those of the numbers.
    fn ordered(self, other: Self)
        ensures equal { IsTrue (Self.eq self other) ↔ (number self ≡ number other) }
        ensures partial { Self.partial_cmp self other ≡
            Some (nat_cmp (number self) (number other)) }
        ensures total { Self.cmp self other ≡ nat_cmp (number self) (number other) };
}

/// The distance between two ids of one type, from 0 to 4294967295.
///
/// Only a difference of ids makes one.
pub trait IdOffset: Copy {
    // The number that contracts see.
    ghost number: { Self → ℕ };

    /// The distance as a number.
    fn to_u32(self) -> u32
        ensures { result ≡ number self };

    /// Law: no distance is above 4294967295.
    fn bounded(self)
        ensures { number self ≤ 4294967295 };
}

impl IdNumber for u32 {
    ghost number = { λ n. n };

    fn to_u32(self) -> u32 {
        self
    }

    fn from_u32(n: u32) -> u32 {
        n
    }

    fn bounded(self) {}

    fn identified(self, _other: u32) {}

    fn ordered(self, _other: u32) {}
}
