//! What holds of every text of a specification.
//!
//! These functions do nothing when they run. In a proof, a call of one makes its contract available
//! to the caller.
ghost use Rattle.std.specs.Prelude.{◌≡◌, ◌^◌, ◌<◌, ℕ, List, All};
ghost use Rattle.std.specs.Str.{chars};
ghost use Rattle.virtiofs_map.specs.Printed.{specification_text};
ghost use Rattle.virtiofs_map.specs.SpecificationText.{Says, numbers_of, SpecificationFault, HasSpecificationFault};
ghost use Rattle.virtiofs_map.specs.declared.cmdline.IdMap.{IdMap};

/// A text means at most one specification.
pub fn one_value()
    ensures { (text : List ℕ) (spec other : IdMap)
        → Says text spec → Says text other → spec ≡ other }
{}

/// A text that means a specification has no fault.
pub fn no_fault()
    ensures { (text : List ℕ) (spec : IdMap) (fault : SpecificationFault)
        → Says text spec → ¬ HasSpecificationFault text fault }
{}

/// A text has at most one fault.
#[tactic(auto, using(crate::proofs::ForCallers::specification_one_fault))]
pub fn one_fault()
    ensures { (text : List ℕ) (fault other : SpecificationFault)
        → HasSpecificationFault text fault → HasSpecificationFault text other → fault ≡ other }
{}

/// The printed form of a specification whose numbers are below 2^32, as those of every
/// [`IdMap`](super::IdMap) are, is a text that means that specification.
#[tactic(auto, using(crate::proofs::PrintedLemmas::specification_printed))]
pub fn reads_back()
    ensures { (spec : IdMap) → All (λ n. n < 2 ^ 32) (numbers_of spec)
        → Says (chars (specification_text spec)) spec }
{}
