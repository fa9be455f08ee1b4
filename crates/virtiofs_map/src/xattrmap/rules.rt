//! The rules of a text, as they are read before a map is made of them. Each `map` rule stands as the
//! two or three rules that it is short for. The patterns of all rules stand in one memory.

ghost use Rattle.std.specs.Option.{option_map};
ghost use Rattle.std.specs.Prelude.{◌≡◌, ◌↔◌, ◌++◌, ◌∷◌, [], length, slice_get, None, IfOk, IsSomeAnd, IsTrue, MatchOption};
ghost use Rattle.virtiofs_map.specs.FirstRule.{acts, pattern};
ghost use Rattle.virtiofs_map.specs.NamesImage.{acts_number};
ghost use Rattle.virtiofs_map.specs.NodeParts.{IsSpan};
ghost use Rattle.virtiofs_map.specs.Rule.{same_rule};
ghost use Rattle.virtiofs_map.specs.RuleParts.{AreKept, rule_meant, rule_with};

use crate::xattrmap::image::stored::{SHARE, read_rule, row_at, span_of};
use crate::xattrmap::le_u64::push_le_u64;
use crate::xattrmap::scopes::{Scope, Side};
use crate::xattrmap::spans::Span;
use crate::xattrmap::trie::ROW;
use std::alloc::{AllocError, Allocator};
use std::marker::Model;

/// What a rule does with the names that it decides: the type of the rule.
#[derive(Clone, Copy, PartialEq, Eq, Debug)]
pub enum RuleKind {
    /// `prefix`: a name of the guest passes with the prepend before it, and one of the host is listed
    /// without it.
    Prefix,
    /// `ok`: it passes, or is listed, as it is.
    Okay,
    /// `bad`: it is denied, or hidden.
    Bad,
    /// `unsupported`: it is refused as unsupported, or hidden.
    Unsupported,
}

impl RuleKind {
    ghost use Rattle.virtiofs_map.specs.NamesImageParts.{type_numbered};
    ghost use Rattle.virtiofs_map.specs.Rule.{type_number};
    ghost use Rattle.virtiofs_map.specs.RuleParts.{type_of};

    /// The number that stands for the type.
    pub(crate) fn number(self) -> u64
        ensures { result ≡ type_number (type_of self) }
    {
        match self {
            RuleKind::Prefix => 0,
            RuleKind::Okay => 1,
            RuleKind::Bad => 2,
            RuleKind::Unsupported => 3,
        }
    }

    /// The type of that number.
    #[inline(always)]
    pub(crate) fn numbered(number: u64) -> RuleKind
        ensures { type_of result ≡ type_numbered number }
    {
        match number {
            0 => RuleKind::Prefix,
            1 => RuleKind::Okay,
            2 => RuleKind::Bad,
            _ => RuleKind::Unsupported,
        }
    }
}

/// A rule of a map, lent for reading.
#[derive(Clone, Copy)]
pub struct RuleRef<'m> {
    /// What it does.
    pub kind: RuleKind,
    pub(crate) scope: Scope,
    /// What names of the guest are compared with.
    pub key: &'m [u8],
    /// What names of the host are compared with.
    pub prepend: &'m [u8],
}

impl<'m> RuleRef<'m> {
    /// Whether the rule acts on that side.
    pub fn acts_on(self, side: Side) -> bool
        ensures { result ≡ acts side (rule_meant self.entry) }
    {
        self.scope.has(side)
    }

    /// What the rule compares names of that side with.
    pub(crate) fn pattern(self, side: Side) -> &'m [u8]
        ensures { result.now ≡ pattern side (rule_meant self.entry) }
    {
        match side {
            Side::Client => self.key,
            Side::Server => self.prepend,
        }
    }

    /// What the rule does and on which sides, as a number.
    fn acts_number(self) -> u64
        ensures { result ≡ acts_number (rule_meant self.entry) }
    {
        let client = if self.acts_on(Side::Client) { 4 } else { 0 };
        let server = if self.acts_on(Side::Server) { 8 } else { 0 };
        self.kind.number() + client + server
    }

    /// Whether the two rules are the same.
    pub fn is_same(self, other: RuleRef<'_>) -> bool
        ensures value { result ≡ same_rule (rule_meant self.entry) (rule_meant other.entry) }
        ensures same { IsTrue result ↔ (rule_meant self.entry ≡ rule_meant other.entry) }
    {
        self.kind == other.kind
            && self.acts_on(Side::Client) == other.acts_on(Side::Client)
            && self.acts_on(Side::Server) == other.acts_on(Side::Server)
            && self.key == other.key
            && self.prepend == other.prepend
    }
}

/// The rules in order, as an image of a map has them: a row for each, and the bytes of all patterns,
/// one after the other.
#[derive(Drop)]
pub(crate) struct Rules<A: Allocator> {
    rows: Vec<u8, A>,
    bytes: Vec<u8, A>,
}

impl<A: Allocator> Model for Rules<A> {
    ghost use Rattle.virtiofs_map.specs.NamesImageParts.{rules_stored};
    ghost use Rattle.virtiofs_map.specs.RuleParts.{AreKept, KeptRules};

    ghost Value = { KeptRules };

    ghost view = { λ rules. record {
      list = rules_stored rules.bytes.items rules.rows.items;
      rows = rules.rows.items;
      bytes = rules.bytes.items;
    } };

    ghost invariant = { λ rules. AreKept
        (rules_stored rules.bytes.items rules.rows.items) rules.rows.items rules.bytes.items };
}

impl<A: Allocator> Rules<A> {
    /// How many rules there are.
    pub(crate) fn len(&self) -> usize
        ensures { result ≡ length self.now.list }
    {
        self.rows.len() / ROW
    }

    /// The rule at a place.
    pub(crate) fn get(&self, place: usize) -> Option<RuleRef<'_>>
        ensures { option_map rule_meant result ≡ slice_get self.now.list place }
    {
        read_rule(self.rows.as_slice(), self.bytes.as_slice(), place)
    }

    /// The rows of the rules.
    pub(crate) fn rows(&self) -> &[u8]
        ensures { result.now ≡ self.now.rows }
    {
        self.rows.as_slice()
    }

    /// The bytes of all patterns.
    pub(crate) fn bytes(&self) -> &[u8]
        ensures bytes { result.now ≡ self.now.bytes }
        ensures kept { AreKept self.now.list self.now.rows self.now.bytes }
    {
        self.bytes.as_slice()
    }

    /// Where the patterns of the rule at a place stand among the bytes.
    pub(crate) fn span(&self, place: usize) -> Option<Span>
        ensures { MatchOption result
            (slice_get self.now.list place ≡ None)
            (λ span. IsSomeAnd (slice_get self.now.list place)
            (λ rule. IsSpan self.now.bytes rule span)) }
    {
        let row = row_at(self.rows.as_slice(), place)?;
        Some(span_of(row))
    }

    /// The rules, and one more behind them.
    // (in line, or the rules are copied at each call, and read right after they are written)
    #[inline(always)]
    pub(crate) fn extended(
        self,
        kind: RuleKind,
        scope: Scope,
        key: &[u8],
        prepend: &[u8],
    ) -> Result<Rules<A>, AllocError>
        ensures { IfOk result (λ rules.
            rules.list ≡ self.list ++ rule_with kind scope key.now prepend.now ∷ []) }
    {
        let rule = RuleRef {
            kind,
            scope,
            key,
            prepend,
        };
        let Rules {
            mut rows,
            mut bytes,
        } = self;
        let start = bytes.len();
        bytes.extend_from_slice(key)?;
        let middle = bytes.len();
        bytes.extend_from_slice(prepend)?;
        let end = bytes.len();
        if end as u64 >= SHARE {
            return Err(AllocError);
        }
        push_le_u64(&mut rows, start as u64 + SHARE * rule.acts_number())?;
        push_le_u64(&mut rows, middle as u64)?;
        push_le_u64(&mut rows, end as u64)?;
        Ok(Rules { rows, bytes })
    }
}

impl<A: Allocator + Copy> Rules<A> {
    /// No rules, with room for the patterns of a text of that many bytes, and for a few rows.
    #[tactic(auto, unfolding(crate::specs::NamesImageParts::rules_stored))]
    pub(crate) fn new(alloc: A, text_len: usize) -> Result<Rules<A>, AllocError>
        ensures { IfOk result (λ rules. rules.list ≡ []) }
    {
        Ok(Rules {
            rows: Vec::with_capacity(alloc, 8 * ROW)?,
            bytes: Vec::with_capacity(alloc, text_len)?,
        })
    }
}
