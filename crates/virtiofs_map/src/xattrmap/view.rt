//! Reading a map of names.

ghost use Rattle.std.specs.List.{before_first};
ghost use Rattle.std.specs.Option.{option_map};
ghost use Rattle.std.specs.Prelude.{◌≡◌, ◌≢◌, ◌==◌, ◌↔◌, ◌≤◌, ℕ, List, length, take, slice_get, All, IfSome, IsNone, IsSomeAnd, is_some};
ghost use Rattle.virtiofs_map.specs.NodeParts.{answer_of};
ghost use Rattle.virtiofs_map.specs.FirstRule.{CountsFronts, CountsLookup};
ghost use Rattle.virtiofs_map.specs.Names.{deciding, first};
ghost use Rattle.virtiofs_map.specs.NamesImage.{IsImage, IsMapOf, IsNoImage, Says};
ghost use Rattle.virtiofs_map.specs.NamesImageParts.{HasTrie};
ghost use Rattle.virtiofs_map.specs.Rule.{HasNoZero, MappingRule, same_rules};
ghost use Rattle.virtiofs_map.specs.RuleParts.{rule_meant};
ghost use Rattle.virtiofs_map.specs.declared.xattrmap.scopes.Side.{Side};

use crate::steps::Steps;
use crate::xattrmap::XattrMap;
use crate::xattrmap::image::Decision;
use crate::xattrmap::image::header::{HEADER, is_image, part, part_start};
use crate::xattrmap::image::stored::{prepend_at, read_rule};
use crate::xattrmap::names::XattrName;
use crate::xattrmap::rules::RuleRef;
use crate::xattrmap::scopes::Side;
use crate::xattrmap::trie::{NO_ANSWER, ROW, Trie, first_place, look_up};
use std::alloc::Allocator;

/// A map of names, lent for reading: bytes that begin and end as the image of a map does.
///
/// What its calls answer is known where the bytes are the image of some rules. They read nothing
/// outside the bytes, whatever these are, and none of them takes memory but those that say so.
#[derive(Clone, Copy, Debug)]
pub struct XattrMapRef<'m> {
    pub(crate) bytes: &'m [u8],
}

impl<'m> XattrMapRef<'m> {
    /// The map in these bytes; `None` if they do not begin and end as an image does.
    #[inline(always)]
    pub fn of(bytes: &'m [u8]) -> Option<XattrMapRef<'m>>
        ensures closed { IsNone result ↔ IsNoImage bytes.now }
        ensures map { (rules : List MappingRule) → IsImage rules bytes.now
            → IsSomeAnd result (IsMapOf rules) }
    {
        if !is_image(bytes) {
            return None;
        }
        Some(XattrMapRef { bytes })
    }

    /// The trie of the patterns of that side.
    #[inline(always)]
    fn trie(self, side: Side) -> Trie<'m>
        ensures { (rules : List MappingRule) → IsMapOf rules self.entry
            → HasTrie side rules self.entry.bytes.now result.rows.image.now result.root }
    {
        match side {
            Side::Client => Trie::new(self.bytes, HEADER),
            Side::Server => Trie::new(self.bytes, part_start(self.bytes, 1)),
        }
    }

    /// How many rules there are.
    pub(crate) fn len(self) -> usize
        ensures { (rules : List MappingRule) → IsMapOf rules self.entry → result ≡ length rules }
    {
        part(self.bytes, 2).len() / ROW
    }

    /// The rule at a place.
    pub(crate) fn rule(self, place: usize) -> Option<RuleRef<'m>>
        ensures { (rules : List MappingRule) → IsMapOf rules self.entry
            → option_map rule_meant result ≡ slice_get rules place }
    {
        read_rule(part(self.bytes, 2), part(self.bytes, 3), place)
    }

    /// Whether the rules are the same, one by one.
    pub(crate) fn is_same(self, other: XattrMapRef<'_>) -> bool
        ensures { (rules others : List MappingRule) → IsMapOf rules self.entry
            → IsMapOf others other.entry → result ≡ same_rules rules others }
    {
        if self.len() != other.len() {
            return false;
        }
        for place in 0..self.len() {
            let (Some(one), Some(another)) = (self.rule(place), other.rule(place)) else {
                return false;
            };
            if !one.is_same(another) {
                return false;
            }
        }
        true
    }

    /// The place of the first rule that fits a name of that side. The steps are those of
    /// [`XattrMap::first_rule`](crate::xattrmap::XattrMap::first_rule).
    pub(crate) fn first_rule(self, side: Side, name: &[u8], steps: &mut Steps) -> Option<usize>
        ensures first { (rules : List MappingRule) → IsMapOf rules self.entry
            → result ≡ first side rules name.now }
        ensures steps { (rules : List MappingRule) → IsMapOf rules self.entry
            → CountsLookup side rules name.now steps.old steps.new }
        ensures fronts { (rules : List MappingRule) → IsMapOf rules self.entry
            → CountsFronts side rules name.now steps.old steps.new }
    {
        first_place(self.trie(side), name, steps)
    }

    /// What the answer of a name says. No rule is read but one whose prepend is wanted.
    // (two tests of a bit each are faster than the table that a match of four numbers becomes; with
    // `Undecided` for a prepend that is not there, every name would take one instruction more)
    #[inline(always)]
    fn decode(self, answer: u64) -> Decision<'m>
        ensures { (side : Side) (rules : List MappingRule) (name : List ℕ)
            → IsMapOf rules self.entry → answer ≡ answer_of side rules name
            → Says side rules name result }
    {
        let (is_odd, is_high) = (answer % 2 == 1, answer / 2 % 2 == 1);
        if !is_odd {
            if is_high {
                return Decision::Bad;
            }
            return match prepend_at(self.bytes, (answer / 4) as usize) {
                Some(prepend) => Decision::Prefix(prepend),
                None => Decision::NoMap,
            };
        }
        if !is_high {
            return Decision::Okay;
        }
        if answer == NO_ANSWER {
            Decision::Undecided
        } else {
            Decision::Unsupported
        }
    }

    /// What the first rule that fits a name of that side does, and how many bytes of the name were
    /// passed to find it. No zero is among these: the first zero, and what follows it, makes no
    /// difference.
    #[inline(always)]
    pub(crate) fn decide(self, side: Side, name: &[u8]) -> (Decision<'m>, usize)
        ensures says { (rules : List MappingRule) → IsMapOf rules self.entry
            → Says side rules name.now result.0 }
        ensures before_zero { (rules : List MappingRule) → IsMapOf rules self.entry
            → Says side rules (before_first (λ byte. byte == 0) name.now) result.0 }
        ensures no_zero { (rules : List MappingRule) → IsMapOf rules self.entry
            → All (λ byte. byte ≢ 0) (take result.1 name.now) }
        ensures within { result.1 ≤ length name.now }
    {
        let (answer, passed) = look_up(self.trie(side), name);
        (self.decode(answer), passed)
    }

    /// Whether some rule fits the name.
    pub(crate) fn is_decided(self, side: Side, name: &[u8]) -> bool
        ensures { (rules : List MappingRule) → IsMapOf rules self.entry
            → result ≡ is_some (deciding side rules name.now) }
    {
        let (answer, _) = look_up(self.trie(side), name);
        answer != NO_ANSWER
    }
}

impl<A: Allocator> XattrMap<A> {
    /// How many rules there are, where each `map` rule counts as the two or three rules that it is
    /// short for.
    pub fn rule_count(&self) -> usize
        ensures { result ≡ length self.now }
    {
        self.as_ref().len()
    }

    /// The rule at a place of the list, counted from 0, lent for reading; `None` behind the last one.
    /// Each `map` rule of the text is replaced by the rules that it is short for.
    pub fn rule(&self, place: usize) -> Option<RuleRef<'_>>
        ensures here { option_map rule_meant result ≡ slice_get self.now place }
        ensures no_zero { IfSome result (λ rule. HasNoZero (rule_meant rule)) }
    {
        self.as_ref().rule(place)
    }

    /// Returns the position of the first rule that fits the name on that side, counted from 0 in
    /// the list of rules, where each `map` rule is replaced by the rules that it is short for;
    /// `None` if no rule fits. It does not allocate.
    ///
    /// The pattern of a rule is its key on the client's side, and its prepend on the server's. The
    /// call counts 1 step, and 1 more for each byte of the longest beginning that the name shares
    /// with a pattern of that side. If a rule decides the name, that is at least 1 + the length of
    /// its pattern. It is at most 1 + the length of the name, and at most 1 + the length of the
    /// longest pattern of that side.
    pub fn first_rule(&self, side: Side, name: XattrName<'_>, steps: &mut Steps) -> Option<usize>
        ensures first { result ≡ first side self.now name.entry.bytes.now }
        ensures steps { CountsLookup side self.now name.entry.bytes.now steps.old steps.new }
        // One step more is counted than the most bytes that the name shares with a pattern.
        ensures fronts { CountsFronts side self.now name.entry.bytes.now steps.old steps.new }
    {
        self.as_ref().first_rule(side, name.bytes, steps)
    }
}
