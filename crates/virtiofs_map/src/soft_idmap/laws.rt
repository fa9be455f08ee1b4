//! What holds of every list of specifications, and of every list of texts.
//!
//! These functions do nothing when they run. In a proof, a call of one makes its contract available
//! to the caller.
ghost use Rattle.std.specs.Prelude.{◌≡◌, ℕ, List};
ghost use Rattle.virtiofs_map.specs.Build.{Accepted, BuildFault, HasFirstFault};
ghost use Rattle.virtiofs_map.specs.MappingLaws.{HasOneValue};
ghost use Rattle.virtiofs_map.specs.Specifications.{AllSay, SpecsFault, HasSpecsFault};
ghost use Rattle.virtiofs_map.specs.declared.cmdline.IdMap.{IdMap as Specification};

/// An accepted list maps each number, in each direction, to only one result.
pub fn one_value()
    ensures { (specs : List Specification) → Accepted specs → HasOneValue specs }
{}

/// An accepted list has no fault.
#[tactic(auto, using(crate::proofs::ForCallers::build_no_fault))]
pub fn no_fault()
    ensures { (specs : List Specification) (fault : BuildFault)
        → Accepted specs → ¬ HasFirstFault specs fault }
{}

/// A list has at most one first fault.
#[tactic(auto, using(crate::proofs::ForCallers::build_one_fault))]
pub fn one_fault()
    ensures { (specs : List Specification) (fault other : BuildFault)
        → HasFirstFault specs fault → HasFirstFault specs other → fault ≡ other }
{}

/// A list of texts means at most one list of specifications.
#[tactic(auto, using(crate::proofs::ForCallers::texts_one_value))]
pub fn texts_one_value()
    ensures { (texts : List (List ℕ)) (specs others : List Specification)
        → AllSay texts specs → AllSay texts others → specs ≡ others }
{}

/// A list of texts that means an accepted list has no fault.
#[tactic(auto, using(crate::proofs::ForCallers::texts_no_fault))]
pub fn texts_no_fault()
    ensures { (texts : List (List ℕ)) (specs : List Specification) (fault : SpecsFault)
        → AllSay texts specs → Accepted specs → ¬ HasSpecsFault texts fault }
{}

/// A list of texts has at most one fault.
#[tactic(auto, using(crate::proofs::ForCallers::texts_one_fault))]
pub fn texts_one_fault()
    ensures { (texts : List (List ℕ)) (fault other : SpecsFault)
        → HasSpecsFault texts fault → HasSpecsFault texts other → fault ≡ other }
{}
