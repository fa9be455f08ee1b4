//! How the text of a specification is read.
ghost use Rattle.std.specs.Prelude.{◌≡◌, ◌≢◌, ℕ, [], ◌∷◌, MatchResult, IfOk, IfErr, IfSome, IfNone, string_bytes};
ghost use Rattle.std.specs.List.{AllZip};
ghost use Rattle.std.specs.Str.{chars};
ghost use Rattle.virtiofs_map.specs.Numeral.{IsNumeral};
ghost use Rattle.virtiofs_map.specs.Refusal.{IsOutOfMemory, OutOfMemoryOr};
ghost use Rattle.virtiofs_map.specs.Separator.{split_at_each};
ghost use Rattle.virtiofs_map.specs.SpecificationText.{is_word_character, word_of, numbers_of, HasNoSeparator, Says};
ghost use Rattle.virtiofs_map.specs.SpecificationText.{HasParts, IsFieldsFault, IsCountFault, IsWordFault};
ghost use Rattle.virtiofs_map.specs.SpecificationText.{SpecificationFault, InvalidValue, HasSpecificationFault};
ghost use Rattle.virtiofs_map.specs.SpecificationText.{specification_fault_of, IsExplained};
ghost use Rattle.virtiofs_map.specs.declared.cmdline.IdMap.{IdMap as Specification};
ghost use Rattle.virtiofs_map.specs.declared.cmdline.IdMap.TheVariants.{Bidirectional, ForbidGuest};

use super::{IdMap, IdMapError};
use crate::text::{cut_at, is_alphanumeric, number};
use std::alloc::{AllocError, Allocator};

/// A text after its prefix was taken off.
#[derive(Drop)]
struct Cut<'a, A: Allocator> {
    /// The prefix, with its ASCII letters in lower case.
    word: String<A>,
    separator: char,
    rest: &'a str,
}

/// Whether a character belongs to a prefix.
fn is_word_character(c: char) -> bool
    ensures { result ≡ is_word_character c }
{
    is_alphanumeric(c) || c == '-' || c == '_'
}

/// Cuts off the longest prefix of word characters, and the separator after it; `None` where there
/// is no separator.
#[tactic(auto, using(crate::proofs::SpecificationLemmas::read_prefix))]
fn cut_prefix<A: Allocator>(alloc: A, text: &str) -> Result<Option<Cut<'_, A>>, AllocError>
    ensures none { IfOk result (λ o. IfNone o (HasNoSeparator (chars text.now))) }
    ensures cut { IfOk result (λ o. IfSome o (λ cut.
        HasParts (chars text.now) (chars (string_bytes cut.word))
        (split_at_each cut.separator (chars cut.rest.now)))) }
{
    let mut chars = text.chars();
    let mut word = String::new(alloc);
    while let Some(c) = chars.next() {
        if !is_word_character(c) {
            let rest = chars.as_str();
            return Ok(Some(Cut {
                word,
                separator: c,
                rest,
            }));
        }
        word.push(c.to_ascii_lowercase())?;
    }
    Ok(None)
}

/// Reads one field.
fn read_field<A: Allocator>(alloc: A, field: &str) -> Result<u32, IdMapError<A>>
    ensures answer { MatchResult result
        (λ value. IsNumeral (chars field.now) value)
        (λ e. OutOfMemoryOr (specification_fault_of e) (λ fault.
        (fault ≡ InvalidValue (chars field.now))
        × ((value : ℕ) → ¬ IsNumeral (chars field.now) value))) }
    ensures explained { IfErr result IsExplained }
{
    match number(field) {
        Ok(value) => Ok(value),
        Err(error) => {
            let value = String::from_str(alloc, field)?;
            Err(IdMapError::InvalidValue { value, error })
        }
    }
}

/// Reads the numbers between the separators.
#[tactic(auto, using(crate::proofs::SpecificationLemmas::fields))]
fn read_fields<A: Allocator + Copy>(
    alloc: A,
    separator: char,
    fields: &str,
) -> Result<Vec<u32, A>, IdMapError<A>>
    ensures read { IfOk result (λ v.
        AllZip IsNumeral (split_at_each separator (chars fields.now)) v.items) }
    ensures refused { IfErr result (λ e. OutOfMemoryOr (specification_fault_of e)
        (IsFieldsFault (split_at_each separator (chars fields.now)))) }
    ensures explained { IfErr result IsExplained }
{
    let mut numbers = Vec::new(alloc);
    let mut rest = fields;
    while let Some((field, after)) = cut_at(rest, separator) {
        numbers.push(read_field(alloc, field)?)?;
        rest = after;
    }
    numbers.push(read_field(alloc, rest)?)?;
    Ok(numbers)
}

/// The numbers of a word that takes three.
fn three<A: Allocator>(numbers: &[u32]) -> Result<(u32, u32, u32), IdMapError<A>>
    ensures answer { MatchResult result
        (λ n. numbers.now ≡ n.0 ∷ n.1 ∷ n.2 ∷ [])
        (λ e. OutOfMemoryOr (specification_fault_of e) (IsCountFault 3 numbers.now)) }
    ensures explained { IfErr result IsExplained }
{
    match numbers {
        [first, second, third] => Ok((*first, *second, *third)),
        _ => Err(IdMapError::InvalidLength {
            expected: 3,
            seen: numbers.len(),
        }),
    }
}

/// The numbers of a word that takes two.
fn two<A: Allocator>(numbers: &[u32]) -> Result<(u32, u32), IdMapError<A>>
    ensures answer { MatchResult result
        (λ n. numbers.now ≡ n.0 ∷ n.1 ∷ [])
        (λ e. OutOfMemoryOr (specification_fault_of e) (IsCountFault 2 numbers.now)) }
    ensures explained { IfErr result IsExplained }
{
    match numbers {
        [first, second] => Ok((*first, *second)),
        _ => Err(IdMapError::InvalidLength {
            expected: 2,
            seen: numbers.len(),
        }),
    }
}

/// The specification of one of the four words that map or squash in one direction.
fn one_way<A: Allocator>(word: String<A>, numbers: &[u32]) -> Result<IdMap, IdMapError<A>>
    requires map { string_bytes word ≢ word_of (Bidirectional 0 0 0) }
    requires forbid_guest { string_bytes word ≢ word_of (ForbidGuest 0 0) }
    ensures word { IfOk result (λ spec. string_bytes word ≡ word_of spec) }
    ensures numbers { IfOk result (λ spec. numbers.now ≡ numbers_of spec) }
    ensures refused { IfErr result (λ e. OutOfMemoryOr (specification_fault_of e)
        (IsWordFault (chars (string_bytes word)) numbers.now)) }
    ensures explained { IfErr result IsExplained }
{
    match word.as_str() {
        "guest" => {
            let (from_guest, to_host, count) = three(numbers)?;
            Ok(IdMap::Guest {
                from_guest,
                to_host,
                count,
            })
        }
        "host" => {
            let (from_host, to_guest, count) = three(numbers)?;
            Ok(IdMap::Host {
                from_host,
                to_guest,
                count,
            })
        }
        "squash-guest" => {
            let (from_guest, to_host, count) = three(numbers)?;
            Ok(IdMap::SquashGuest {
                from_guest,
                to_host,
                count,
            })
        }
        "squash-host" => {
            let (from_host, to_guest, count) = three(numbers)?;
            Ok(IdMap::SquashHost {
                from_host,
                to_guest,
                count,
            })
        }
        _ => Err(IdMapError::InvalidPrefix(word)),
    }
}

/// The specification that a word and its numbers say.
fn specification<A: Allocator>(word: String<A>, numbers: &[u32]) -> Result<IdMap, IdMapError<A>>
    ensures word { IfOk result (λ spec. string_bytes word ≡ word_of spec) }
    ensures numbers { IfOk result (λ spec. numbers.now ≡ numbers_of spec) }
    ensures refused { IfErr result (λ e. OutOfMemoryOr (specification_fault_of e)
        (IsWordFault (chars (string_bytes word)) numbers.now)) }
    ensures explained { IfErr result IsExplained }
{
    match word.as_str() {
        "map" => {
            let (guest, host, count) = three(numbers)?;
            Ok(IdMap::Bidirectional { guest, host, count })
        }
        "forbid-guest" => {
            let (from_guest, count) = two(numbers)?;
            Ok(IdMap::ForbidGuest { from_guest, count })
        }
        _ => one_way(word, numbers),
    }
}

/// Reads a text: its prefix, then its numbers, and then what the two say.
#[tactic(auto, using(crate::proofs::SpecificationLemmas::read_words))]
fn read<A: Allocator + Copy>(alloc: A, text: &str) -> Result<IdMap, IdMapError<A>>
    ensures read { IfOk result (λ spec. Says (chars text.now) spec) }
    ensures refused { IfErr result (λ e.
        OutOfMemoryOr (specification_fault_of e) (HasSpecificationFault (chars text.now))) }
    ensures explained { IfErr result IsExplained }
{
    let Some(cut) = cut_prefix(alloc, text)? else {
        return Err(IdMapError::InvalidLength {
            expected: 1,
            seen: 0,
        });
    };
    let numbers = read_fields(alloc, cut.separator, cut.rest)?;
    specification(cut.word, &numbers)
}

impl IdMap {
    /// Reads a specification.
    ///
    /// The tests come in this order, and the first that fails is the error:
    ///
    /// 1. A separator ends the prefix; else [`IdMapError::InvalidLength`] with `expected` 1 and
    ///    `seen` 0.
    /// 2. Each field after the prefix is a number from 0 to 4294967295: an optional `+`, and then
    ///    one or more decimal digits, where leading zeros are allowed; else
    ///    [`IdMapError::InvalidValue`] with the first field that is not one.
    /// 3. The prefix, in upper or lower case, is one of the six words; else
    ///    [`IdMapError::InvalidPrefix`].
    /// 4. There are as many numbers as the word takes; else [`IdMapError::InvalidLength`].
    ///
    /// If an allocation fails, the error is [`IdMapError::OutOfMemory`].
    pub fn from_str<A: Allocator + Copy>(alloc: A, text: &str) -> Result<IdMap, IdMapError<A>>
        ensures read { IfOk result (λ spec. Says (chars text.now) spec) }
        ensures complete { (spec : Specification) → Says (chars text.now) spec
            → MatchResult result (λ r. r ≡ spec) (λ e. IsOutOfMemory (specification_fault_of e)) }
        ensures refused { IfErr result (λ e.
            OutOfMemoryOr (specification_fault_of e) (HasSpecificationFault (chars text.now))) }
        ensures faulty { (fault : SpecificationFault)
            → HasSpecificationFault (chars text.now) fault
            → MatchResult result (λ _. ⊥)
            (λ e. OutOfMemoryOr (specification_fault_of e) (λ told. told ≡ fault)) }
        // Where a field is no number, the error says what the standard library says of that field.
        ensures explained { IfErr result IsExplained }
    {
        read(alloc, text)
    }
}
