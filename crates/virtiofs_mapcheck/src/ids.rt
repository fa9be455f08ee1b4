//! What ids become under specifications.
ghost use Rattle.std.specs.Prelude.{◌≡◌, ℕ, List, ◌++◌, Some, OnOk, IfOk, string_bytes};
ghost use Rattle.std.specs.List.{AllZip, concat};
ghost use Rattle.virtiofs_map.specs.Printed.{build_error_text};
ghost use Rattle.virtiofs_map.specs.SpecificationText.{SpecificationFault, specification_fault_of};
ghost use Rattle.virtiofs_map.specs.Specifications.{SpecsFault, specs_fault_of};
ghost use Rattle.virtiofs_mapcheck.specs.IdsAnswer.{IsLine, specification_fault_text, at_index, specs_fault_text, AnswersIds};
ghost use Rattle.virtiofs_mapcheck.specs.Words.{words_of};
ghost use Rattle.virtiofs_mapcheck.specs.Outcome.{refusal};

use crate::words::Query;
use std::alloc::{AllocError, Allocator};
use virtiofs_map::cmdline;
use virtiofs_map::id_types::{GuestUid, HostUid};
use virtiofs_map::soft_idmap::{Direction, IdMap, IdMapBuildError, SpecsError};
use virtiofs_output::outcome::Answered;
use virtiofs_output::written::push_quoted;

/// Writes the line of a query at the end of a text.
fn push_line<A: Allocator>(
    text: &mut String<A>,
    map: &IdMap<GuestUid, HostUid, A>,
    query: Query,
) -> Result<(), AllocError>
    ensures { OnOk result ((line : List ℕ) × IsLine map.now query line
        × (string_bytes text.new ≡ string_bytes text.old ++ line)) }
{
    match query.direction {
        Direction::GuestToHost => match map.map_guest(GuestUid::from(query.number)) {
            Ok(id) => writeln!(text, "{id}"),
            Err(error) => writeln!(text, "{error}"),
        },
        Direction::HostToGuest => match map.map_host(HostUid::from(query.number)) {
            Ok(id) => writeln!(text, "{id}"),
            Err(error) => writeln!(text, "{error}"),
        },
    }
}

/// The lines of queries.
#[tactic(auto, using(std::proofs::lemmas::List::take_all))]
pub(crate) fn lines_of<A: Allocator>(
    alloc: A,
    map: &IdMap<GuestUid, HostUid, A>,
    queries: &[Query],
) -> Result<String<A>, AllocError>
    ensures { IfOk result (λ text. (lines : List _) × AllZip (IsLine map.now) queries.now lines
        × (string_bytes text ≡ concat lines)) }
{
    let mut text = String::new(alloc);
    for query in queries {
        push_line(&mut text, map, *query)?;
    }
    Ok(text)
}

/// Writes what is wrong with a specification's text at the end of a text.
fn push_fault<A: Allocator>(
    text: &mut String<A>,
    error: &cmdline::IdMapError<A>,
) -> Result<(), AllocError>
    ensures { OnOk result ((fault : SpecificationFault)
        × (specification_fault_of error.now ≡ Some fault)
        × (string_bytes text.new ≡ string_bytes text.old ++ specification_fault_text fault)) }
{
    match error {
        cmdline::IdMapError::InvalidPrefix(prefix) => {
            text.push_str("InvalidPrefix ")?;
            push_quoted(text, prefix.as_bytes())
        }
        cmdline::IdMapError::InvalidLength { expected, seen } => {
            write!(text, "InvalidLength expected {expected} seen {seen}")
        }
        cmdline::IdMapError::InvalidValue { value, .. } => {
            text.push_str("InvalidValue ")?;
            push_quoted(text, value.as_bytes())
        }
        cmdline::IdMapError::OutOfMemory => Err(AllocError),
    }
}

/// The line for a text that is no specification.
fn text_refusal<A: Allocator>(
    alloc: A,
    index: usize,
    error: &cmdline::IdMapError<A>,
) -> Result<String<A>, AllocError>
    ensures { IfOk result (λ text. (fault : SpecificationFault)
        × (specification_fault_of error.now ≡ Some fault)
        × (string_bytes text ≡ refusal (at_index index (specification_fault_text fault)))) }
{
    let mut text = format!(in alloc; "refused: specification {index}: ")?;
    push_fault(&mut text, error)?;
    text.push('\n')?;
    Ok(text)
}

/// The line for a specification, at that index, of which no map is made.
fn build_refusal<A: Allocator>(
    alloc: A,
    index: usize,
    error: &IdMapBuildError,
) -> Result<String<A>, AllocError>
    ensures { IfOk result (λ text.
        string_bytes text ≡ refusal (at_index index (build_error_text error.now))) }
{
    let mut text = format!(in alloc; "refused: specification {index}: ")?;
    writeln!(text, "{error}")?;
    Ok(text)
}

/// The line for texts of which no map is made.
fn specs_refusal<A: Allocator>(alloc: A, error: &SpecsError<A>) -> Result<String<A>, AllocError>
    ensures { IfOk result (λ text. (fault : SpecsFault)
        × (specs_fault_of error.now ≡ Some fault)
        × (string_bytes text ≡ refusal (specs_fault_text fault))) }
{
    match error {
        SpecsError::Spec { index, cause } => text_refusal(alloc, *index, cause),
        SpecsError::Build(fault) => match fault {
            IdMapBuildError::RangeOverflow { index, .. } => build_refusal(alloc, *index, fault),
            IdMapBuildError::Intersects { index, .. } => build_refusal(alloc, *index, fault),
            IdMapBuildError::OutOfMemory => Err(AllocError),
        },
    }
}

/// What ids become under the specifications of texts, or which of these is refused.
pub(crate) fn answer_ids<A: Allocator + Copy>(
    alloc: A,
    texts: &[&str],
    queries: &[Query],
) -> Result<(Answered, String<A>), AllocError>
    ensures { IfOk result (λ p.
        AnswersIds (words_of texts.now) queries.now p.0 (string_bytes p.1)) }
{
    match IdMap::<GuestUid, HostUid, A>::from_specs(alloc, texts) {
        Ok(map) => Ok((Answered::Given, lines_of(alloc, &map, queries)?)),
        Err(error) => Ok((Answered::Refused, specs_refusal(alloc, &error)?)),
    }
}
