//! How the readers of this crate take a text apart, and how they read a number.
ghost use Rattle.std.specs.Prelude.{◌≡◌, ◌<◌, ℕ, ◌∷◌, ◌++◌, length, IfNone, IfSome, IfOk, IfErr, IsErr, IsOkAnd};
ghost use Rattle.std.specs.Str.{chars, IsUtf8};
ghost use Rattle.std.specs.Str.Parse.{ExplainsUnsignedError};
ghost use Rattle.virtiofs_map.specs.Alphanumeric.{is_alphanumeric};
ghost use Rattle.virtiofs_map.specs.Numeral.{IsNumeral};
ghost use Rattle.virtiofs_map.specs.Separator.{Lacks};

use std::num::ParseIntError;
use unicode::properties::{GeneralCategory, is_alphabetic};

/// Whether a character is a letter or a number, as Unicode has it: the property Alphabetic, or one
/// of the general categories Nd, Nl and No.
#[tactic(auto, unfolding(crate::specs::Alphanumeric::is_alphanumeric))]
pub(crate) fn is_alphanumeric(c: char) -> bool
    ensures { result ≡ is_alphanumeric c }
{
    let category = GeneralCategory::for_char(c) as u32;
    is_alphabetic(c)
        || category == GeneralCategory::DecimalNumber as u32
        || category == GeneralCategory::LetterNumber as u32
        || category == GeneralCategory::OtherNumber as u32
}

/// Cuts a text at the first character `at`, which belongs to neither part. The part before it does
/// not contain that character; the part after it may.
#[tactic(auto, using(crate::proofs::CutLemmas::first_cut))]
pub(crate) fn cut_at(text: &str, at: char) -> Option<(&str, &str)>
    ensures absent { IfNone result (Lacks at (chars text.now)) }
    ensures whole { IfSome result (λ p. chars text.now ≡ chars p.0.now ++ at ∷ chars p.1.now) }
    ensures first { IfSome result (λ p. Lacks at (chars p.0.now)) }
    ensures text { IfSome result (λ p. IsUtf8 p.0.now × IsUtf8 p.1.now) }
    ensures shorter { IfSome result (λ p. length p.1.now < length text.now) }
{
    text.split_once(at)
}

/// Reads a number: an optional `+`, and then one or more decimal digits with a value of at most
/// 4294967295. Every reader of this crate reads numbers so. It takes no memory.
///
/// The error is the one that `str::parse` has for a `u32`.
#[tactic(auto, using(crate::proofs::NumeralLemmas::numeral_from_parse))]
pub fn number(text: &str) -> Result<u32, ParseIntError>
    ensures read { IfOk result (λ value. IsNumeral (chars text.now) value) }
    ensures complete { (value : ℕ) → IsNumeral (chars text.now) value
        → IsOkAnd result (λ read. read ≡ value) }
    ensures refused { IfErr result (λ _. (value : ℕ) → ¬ IsNumeral (chars text.now) value) }
    ensures faulty { ((value : ℕ) → ¬ IsNumeral (chars text.now) value) → IsErr result }
    ensures explained { ExplainsUnsignedError 10 text.now result }
{
    text.parse()
}
