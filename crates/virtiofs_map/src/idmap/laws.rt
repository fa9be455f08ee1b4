//! What holds of every text of a range.
//!
//! These functions do nothing when they run. In a proof, a call of one makes its contract available
//! to the caller.
ghost use Rattle.std.specs.Prelude.{◌≡◌, ℕ, List, ◌<◌, ◌^◌};
ghost use Rattle.std.specs.Str.{chars};
ghost use Rattle.virtiofs_map.specs.NamespaceText.{SaysNamespace, NamespaceFault, HasNamespaceFault};
ghost use Rattle.virtiofs_map.specs.Printed.{namespace_text};

/// A text means at most one range.
pub fn one_value()
    ensures { (text : List ℕ) (inside outside count a b c : ℕ)
        → SaysNamespace text inside outside count → SaysNamespace text a b c
        → (inside ≡ a) × (outside ≡ b) × (count ≡ c) }
{}

/// A text that means a range has no fault.
pub fn no_fault()
    ensures { (text : List ℕ) (inside outside count : ℕ) (fault : NamespaceFault)
        → SaysNamespace text inside outside count → ¬ HasNamespaceFault text fault }
{}

/// A text has at most one fault.
#[tactic(auto, using(crate::proofs::ForCallers::namespace_one_fault))]
pub fn one_fault()
    ensures { (text : List ℕ) (fault other : NamespaceFault)
        → HasNamespaceFault text fault → HasNamespaceFault text other → fault ≡ other }
{}

/// The printed form of three numbers below 2^32, as those of every range are, is a text that means
/// the range of these numbers.
#[tactic(auto, using(crate::proofs::PrintedLemmas::namespace_printed))]
pub fn reads_back()
    ensures { (inside outside count : ℕ)
        → inside < 2 ^ 32 → outside < 2 ^ 32 → count < 2 ^ 32
        → SaysNamespace (chars (namespace_text inside outside count)) inside outside count }
{}
