//! Extended attribute names between a guest and its host.
//!
//! A shared folder's files have extended attributes, and host and guest do not always mean the same
//! by a name. A map is a list of rules that says what becomes of each name: a name that the guest
//! uses passes unchanged, passes with a prepend before it, or is rejected, and the list of names
//! from the host is reduced to what the guest may see. The first rule that fits a name decides it.
//!
//! # Rules as text
//!
//! A map is read from a text of rules, such as `:prefix:all:trusted.:user.virtiofs.:`. The first
//! character of a rule is its delimiter: any character that is not a space, a tab, a line feed, a
//! form feed or a carriage return. The delimiter closes each field, and no field contains it. Any
//! number of those five blanks may stand between rules, and each rule may have a delimiter of its
//! own. White space at both ends of the text does not count.
//!
//! - `:TYPE:SCOPE:KEY:PREPEND:` is a rule. A name from the guest is compared with the key, and a
//!   name from the host with the prepend.
//! - `:map:KEY:PREPEND:` is short for two or three rules that keep a guest's names apart from the
//!   host's. With an empty key these are `:prefix:all::PREPEND:` and `:bad:all:::`. With a key they
//!   are `:prefix:all:KEY:PREPEND:`, `:bad:all:PREPEND:KEY:` and `:ok:all:::`. It must be the last
//!   rule.
//!
//! | Type | A guest's name that starts with the key | A host's name that starts with the prepend |
//! |---|---|---|
//! | `prefix` | goes to the host with the prepend before it | is listed without the prepend |
//! | `ok` | goes to the host as it is | is listed as it is |
//! | `bad` | is denied | is hidden |
//! | `unsupported` | is refused as unsupported | is hidden |
//!
//! The scope says on which side a rule acts: `client` for names from the guest, `server` for names
//! from the host, `all` for both.

ghost use Rattle.std.specs.Prelude.{◌≡◌, ℕ, List, IfOk, IfErr, MatchResult};
ghost use Rattle.std.specs.Str.{chars};
ghost use Rattle.virtiofs_map.specs.MapRule.{ReadsMapRule};
ghost use Rattle.virtiofs_map.specs.NamesImage.{IsMapOf};
ghost use Rattle.virtiofs_map.specs.Refusal.{IsOutOfMemory, OutOfMemoryOr};
ghost use Rattle.virtiofs_map.specs.Rule.{MappingRule};
ghost use Rattle.virtiofs_map.specs.RuleText.{SaysRules, CountsRules};
ghost use Rattle.virtiofs_map.specs.RulesFault.{RulesFault, HasRulesFault, rules_fault_of};

mod client;
mod errors;
pub mod image;
pub mod laws;
mod le_u64;
mod listed;
mod names;
mod reader;
pub(crate) mod rules;
mod scopes;
mod spans;
mod trie;
mod view;

pub use client::{AppliedRule, PassedName};
pub use errors::{Error, ErrorKind, PatternField};
use image::write::image_of;
pub use listed::ListedNames;
pub use names::{XattrName, XattrNameBuf};
use reader::read_rules;
pub use rules::{RuleKind, RuleRef};
pub use scopes::Side;
use std::alloc::{AllocError, Allocator, Global};
use std::marker::Model;
pub use view::XattrMapRef;

/// A map of attribute names, in one row of bytes: its image. In contracts it is the list of its
/// rules, where each `map` rule is replaced by the two or three rules that it is short for.
#[derive(Drop)]
#[derive_where(Debug)]
pub struct XattrMap<A: Allocator = Global> {
    bytes: Vec<u8, A>,
}

impl<A: Allocator> Model for XattrMap<A> {
    ghost use Rattle.std.specs.Prelude.{List};
    ghost use Rattle.virtiofs_map.specs.NamesImageParts.{IsWholeImage, rules_in};
    ghost use Rattle.virtiofs_map.specs.Rule.{MappingRule};

    ghost Value = { List MappingRule };

    ghost view = { λ map. rules_in map.bytes.items };

    ghost invariant = { λ map. IsWholeImage (rules_in map.bytes.items) map.bytes.items };
}

impl<A: Allocator> XattrMap<A> {
    /// The map, lent for reading.
    #[inline(always)]
    pub fn as_ref(&self) -> XattrMapRef<'_>
        ensures { IsMapOf self.now result }
    {
        XattrMapRef {
            bytes: self.bytes.as_slice(),
        }
    }
}

impl<A: Allocator> PartialEq for XattrMap<A> {
    ghost use Rattle.std.specs.Prelude.{◌≡◌, ◌↔◌, IsTrue};
    ghost use Rattle.virtiofs_map.specs.Rule.{same_rules};
    ghost use Rattle.std.proofs.Common.{rules};
    ghost use Rattle.std.specs.Cmp.Rules.{comparing};

    ghost eq = { same_rules };

    ghost laws = { Prim.search (comparing, rules) depth 14 };

    fn eq(&self, other: &XattrMap<A>) -> bool
        ensures value { result ≡ same_rules self.now other.now }
        // Maps are equal where their rules are, each map rule standing for those that it is short
        // for.
        ensures equal { IsTrue result ↔ (self.now ≡ other.now) }
    {
        self.as_ref().is_same(other.as_ref())
    }
}

impl<A: Allocator> Eq for XattrMap<A> {
    ghost use Rattle.std.proofs.Common.{rules};
    ghost use Rattle.std.specs.Cmp.Rules.{comparing};

    ghost laws = { Prim.search (comparing, rules) depth 14 };
}

impl<A: Allocator + Copy> XattrMap<A> {
    /// Reads a map from a text of rules, as the module's page describes them.
    ///
    /// # Errors
    ///
    /// The first fault of the text, with the number of the rule that has it, counted from 1. A rule
    /// is read field by field, and whether a field is closed is tested before its content:
    ///
    /// - `IncompleteRule`: the delimiter does not close a field.
    /// - `InvalidType`, `InvalidScope`: there is no such type, or no such scope.
    /// - `NulInPattern`: the key or the prepend contains U+0000.
    /// - `MapRuleViolation`: anything at all follows the last field of a `map` rule.
    ///
    /// Two errors blame no rule:
    ///
    /// - `NoRulesProvided`: the text is empty or only white space.
    /// - `OutOfMemory`: an allocation failed.
    pub fn try_from(alloc: A, text: &str) -> Result<XattrMap<A>, Error<A>>
        ensures read { IfOk result (SaysRules (chars text.now)) }
        ensures complete { (rules : List MappingRule) → SaysRules (chars text.now) rules
            → MatchResult result (λ map. map ≡ rules) (λ e. IsOutOfMemory (rules_fault_of e)) }
        ensures refused { IfErr result (λ e.
            OutOfMemoryOr (rules_fault_of e) (HasRulesFault (chars text.now))) }
        ensures faulty { (fault : RulesFault) → HasRulesFault (chars text.now) fault
            → MatchResult result
            (λ _. ⊥)
            (λ e. OutOfMemoryOr (rules_fault_of e) (λ told. told ≡ fault)) }
        // Where the text is one map rule, the map means what that rule means.
        ensures map_rule { IfOk result (ReadsMapRule (chars text.now)) }
    {
        let (rules, _) = read_rules(alloc, text)?;
        let bytes = image_of(alloc, rules)?;
        Ok(XattrMap { bytes })
    }

    /// How many rules are written in a text. A `map` rule is one of them, though it is short for two
    /// or three rules of the map.
    ///
    /// # Errors
    ///
    /// Those of [`XattrMap::try_from`].
    pub fn written_rules(alloc: A, text: &str) -> Result<usize, Error<A>>
        ensures counted { IfOk result (CountsRules (chars text.now)) }
        ensures complete { (count : ℕ) → CountsRules (chars text.now) count
            → MatchResult result (λ told. told ≡ count) (λ e. IsOutOfMemory (rules_fault_of e)) }
        ensures refused { IfErr result (λ e.
            OutOfMemoryOr (rules_fault_of e) (HasRulesFault (chars text.now))) }
        ensures faulty { (fault : RulesFault) → HasRulesFault (chars text.now) fault
            → MatchResult result
            (λ _. ⊥)
            (λ e. OutOfMemoryOr (rules_fault_of e) (λ told. told ≡ fault)) }
    {
        let (_, written) = read_rules(alloc, text)?;
        Ok(written)
    }

    /// The same map, in memory of its own.
    pub fn clone(&self, alloc: A) -> Result<XattrMap<A>, AllocError>
        ensures { IfOk result (λ map. map ≡ self.now) }
    {
        let bytes = Vec::from_slice(alloc, self.bytes.as_slice())?;
        Ok(XattrMap { bytes })
    }
}
