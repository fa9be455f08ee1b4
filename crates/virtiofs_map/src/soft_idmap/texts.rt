//! The specifications that a list of texts says, read before any of them is built.
ghost use Rattle.std.specs.Prelude.{IfOk, IfErr};
ghost use Rattle.virtiofs_map.specs.Refusal.{OutOfMemoryOr};
ghost use Rattle.virtiofs_map.specs.Specifications.{texts_of, AllSay, HasSpecsFault, specs_fault_of, NamesReached};

use super::SpecsError;
use crate::cmdline::IdMap;
use std::alloc::Allocator;

/// Reads the texts in order, and stops at the first one that cannot be read.
///
/// The error names that text by its place in the list, from 0.
#[tactic(auto, using(crate::proofs::SpecificationsLemmas::all_said))]
pub(crate) fn read_all<A: Allocator + Copy>(
    alloc: A,
    texts: &[&str],
) -> Result<Vec<IdMap, A>, SpecsError<A>>
    ensures read { IfOk result (λ specs. AllSay (texts_of texts.now) specs.items) }
    ensures refused { IfErr result (λ e.
        OutOfMemoryOr (specs_fault_of e) (HasSpecsFault (texts_of texts.now))) }
    ensures reached { IfErr result (NamesReached (texts_of texts.now)) }
{
    let mut specs = Vec::new(alloc);
    for (index, text) in texts.iter().enumerate() {
        match IdMap::from_str(alloc, text) {
            Ok(spec) => specs.push(spec)?,
            Err(cause) => return Err(SpecsError::Spec { index, cause }),
        }
    }
    Ok(specs)
}
