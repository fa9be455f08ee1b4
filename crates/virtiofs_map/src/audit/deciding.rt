//! Whether a rule decides any name.

ghost use Rattle.std.specs.Prelude.{◌≡◌, ◌≢◌, ◌↔◌, All, IsTrue, IsFalse, Some};
ghost use Rattle.virtiofs_map.specs.Audit.{Decides, DecidesOn, IsShadowed, IsShadowedOn};
ghost use Rattle.virtiofs_map.specs.MapRule.{IsName};
ghost use Rattle.virtiofs_map.specs.Names.{first};

use crate::steps::Steps;
use crate::xattrmap::{Side, XattrMap, XattrName};
use std::alloc::Allocator;

impl<A: Allocator> XattrMap<A> {
    /// Whether the rule at a place decides any name, of the guest or of the host: whether it is the
    /// first that fits the name. The empty name counts as any other. It takes no memory.
    ///
    /// A rule decides nothing exactly where, on each side on which it acts, an earlier rule for that
    /// side has a pattern that begins its own. Each name that it fits is then taken by an earlier
    /// rule.
    ///
    /// The place is counted from 0, and is below [`XattrMap::rule_count`]. It is that of
    /// [`XattrMap::first_rule`], where each `map` rule stands as the rules that it is short for. A
    /// `map` rule is the last of its text, so each rule before it has the place that it has in the
    /// text, and the places from there on are those of the `map` rule. It decides nothing where none
    /// of them does. There is no rule at other places, and the answer is no.
    pub fn decides(&self, place: usize) -> bool
        ensures names { IsTrue result ↔ Decides self.now place }
        // It decides no name exactly where earlier rules take its patterns.
        ensures patterns { IsFalse result ↔ IsShadowed self.now place }
    {
        self.decides_on(Side::Client, place) || self.decides_on(Side::Server, place)
    }

    /// Whether the rule at a place decides any name of that side. If so, it decides the name that is
    /// its own pattern: an earlier rule that fits this one fits all names that begin with it.
    pub(super) fn decides_on(&self, side: Side, place: usize) -> bool
        ensures names { IsTrue result ↔ DecidesOn side self.now place }
        ensures patterns { IsFalse result → IsShadowedOn side self.now place }
    {
        match self.rule(place) {
            Some(rule) => self.is_first(side, rule.pattern(side), place),
            None => false,
        }
    }

    /// Whether the rule at a place is the first that fits a name of that side.
    fn is_first(&self, side: Side, name: &[u8], place: usize) -> bool
        requires { All (λ byte. byte ≢ 0) name.now }
        ensures first { IsTrue result ↔ (first side self.now name.now ≡ Some place) }
        ensures is_name { IsName name.now }
    {
        let name = XattrName { bytes: name };
        self.first_rule(side, name, &mut Steps::new()) == Some(place)
    }
}
