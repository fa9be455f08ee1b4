//! The sides on which a rule acts.

ghost use Rattle.std.specs.Prelude.{⊤, ◌≡◌, [], ◌∷◌, codes};
ghost use Rattle.virtiofs_map.specs.RuleParts.{holds, bits_of};

use bitflags::{Flag, Flags};

/// Where a name comes from.
#[derive(Clone, Copy, PartialEq, Eq, Debug)]
pub enum Side {
    /// The guest, which asks for a name.
    Client,
    /// The host, which lists its names.
    Server,
}

/// The word of a rule for the sides on which it acts.
#[derive(Clone, Copy, PartialEq, Eq)]
pub(crate) enum ScopeWord {
    All,
    Client,
    Server,
}

/// A set of sides.
#[derive(Clone, Copy, Debug)]
pub(crate) struct Scope(u8);

impl Flags for Scope {
    type Bits = u8;

    ghost exact = { ⊤ };

    ghost table = { (codes "CLIENT", 1) ∷ (codes "SERVER", 2) ∷ [] };

    ghost set_of = { λ scope. scope.0 };

    fn flags<'a>() -> &'a [Flag<Scope>] {
        &[
            Flag {
                name: "CLIENT",
                value: Scope::CLIENT,
            },
            Flag {
                name: "SERVER",
                value: Scope::SERVER,
            },
        ]
    }

    fn bits(&self) -> u8 {
        self.0
    }

    fn from_bits_retain(bits: u8) -> Scope {
        Scope(bits)
    }
}

impl Scope {
    const CLIENT: Scope = Scope(1);

    const SERVER: Scope = Scope(2);

    /// Whether the set holds the side.
    pub(crate) fn has(self, side: Side) -> bool
        ensures { result ≡ holds side self.0 }
    {
        match side {
            Side::Client => self.contains(Scope::CLIENT),
            Side::Server => self.contains(Scope::SERVER),
        }
    }
}

impl From<ScopeWord> for Scope {
    ghost from_gives = { λ word scope. scope.0 ≡ bits_of word };

    fn from(word: ScopeWord) -> Scope {
        match word {
            ScopeWord::All => Scope::CLIENT.union(Scope::SERVER),
            ScopeWord::Client => Scope::CLIENT,
            ScopeWord::Server => Scope::SERVER,
        }
    }
}
