//! Ranges of ids of a user namespace, as a command line gives them.
//!
//! A range says which ids inside the namespace stand for which ids outside it, as
//! `:0:100000:65536:`: the first id inside, the first one outside, and how many there are. The
//! character at the end of the text, any one that is not alphanumeric, also stands at its beginning
//! and between the numbers, so `,0,100000,65536,` says the same.

use reader::Range;
use std::fmt;
use std::num::ParseIntError;
use thiserror::Error;

pub mod laws;
mod reader;

/// A range of user ids. It is printed as `:inside_uid:outside_uid:count:`, in decimal.
#[derive(Clone, Debug, PartialEq, Eq, Drop)]
pub struct UidMap {
    /// The first id inside the namespace.
    pub inside_uid: u32,
    /// The first id outside it.
    pub outside_uid: u32,
    /// How many ids there are.
    pub count: u32,
}

/// A range of group ids. It is printed as `:inside_gid:outside_gid:count:`, in decimal.
#[derive(Clone, Debug, PartialEq, Eq, Drop)]
pub struct GidMap {
    /// The first id inside the namespace.
    pub inside_gid: u32,
    /// The first id outside it.
    pub outside_gid: u32,
    /// How many ids there are.
    pub count: u32,
}

/// Why a text is no range.
#[derive(Debug, PartialEq, Eq, Drop, Error)]
pub enum IdMapError {
    /// The last character is alphanumeric, or it is the whole text, or the text starts with another
    /// character.
    #[error("A delimiter has been found that does not match the delimiter the map started with")]
    InvalidDelimiter,

    /// The text is empty, or what stands between its delimiters is not three fields.
    #[error("The map is empty or incorrect number of values are provided")]
    IncompleteMap,

    /// A field is not a number from 0 to 4294967295. Contains the parse error of the first such
    /// field.
    #[error("{0}")]
    InvalidValue(ParseIntError),
}

impl From<ParseIntError> for IdMapError {
    ghost use Rattle.std.specs.Prelude.{◌≡◌};
    ghost use Rattle.virtiofs_map.specs.declared.idmap.IdMapError.TheVariants.{InvalidValue};

    ghost from_gives = { λ error r. r ≡ InvalidValue error };

    fn from(error: ParseIntError) -> IdMapError {
        IdMapError::InvalidValue(error)
    }
}

impl UidMap {
    ghost use Rattle.std.specs.Prelude.{◌≡◌, ℕ, IfOk, IfErr, IsOkAnd, IsErrAnd};
    ghost use Rattle.std.specs.Str.{chars};
    ghost use Rattle.virtiofs_map.specs.NamespaceText.{SaysNamespace, NamespaceFault, HasNamespaceFault};
    ghost use Rattle.virtiofs_map.specs.NamespaceText.{namespace_fault_of};

    /// Reads a range of user ids. It takes no memory.
    ///
    /// An empty text gives [`IdMapError::IncompleteMap`]. Otherwise the last character is the
    /// delimiter. If it is alphanumeric, or it is the whole text, or the text starts with another
    /// character, the error is [`IdMapError::InvalidDelimiter`]. If there are not exactly three
    /// fields between the first and the last delimiter, it is [`IdMapError::IncompleteMap`]. If a
    /// field is not a number from 0 to 4294967295, it is [`IdMapError::InvalidValue`]. A number is
    /// an optional `+`, and then one or more decimal digits; leading zeros are allowed.
    #[tactic(auto, using(crate::proofs::NamespaceLemmas::one_reading))]
    pub fn from_str(text: &str) -> Result<UidMap, IdMapError>
        ensures read { IfOk result (λ map.
            SaysNamespace (chars text.now) map.inside_uid map.outside_uid map.count) }
        ensures complete { (inside outside count : ℕ)
            → SaysNamespace (chars text.now) inside outside count
            → IsOkAnd result (λ map.
            (map.inside_uid ≡ inside) × (map.outside_uid ≡ outside) × (map.count ≡ count)) }
        ensures refused { IfErr result (λ e.
            HasNamespaceFault (chars text.now) (namespace_fault_of e)) }
        ensures faulty { (fault : NamespaceFault) → HasNamespaceFault (chars text.now) fault
            → IsErrAnd result (λ e. namespace_fault_of e ≡ fault) }
    {
        let range = Range::from_str(text)?;
        Ok(UidMap {
            inside_uid: range.inside,
            outside_uid: range.outside,
            count: range.count,
        })
    }
}

impl GidMap {
    ghost use Rattle.std.specs.Prelude.{◌≡◌, ℕ, IfOk, IfErr, IsOkAnd, IsErrAnd};
    ghost use Rattle.std.specs.Str.{chars};
    ghost use Rattle.virtiofs_map.specs.NamespaceText.{SaysNamespace, NamespaceFault, HasNamespaceFault};
    ghost use Rattle.virtiofs_map.specs.NamespaceText.{namespace_fault_of};

    /// Reads a range of group ids, from the same texts and with the same errors as
    /// [`UidMap::from_str`]. It takes no memory.
    #[tactic(auto, using(crate::proofs::NamespaceLemmas::one_reading))]
    pub fn from_str(text: &str) -> Result<GidMap, IdMapError>
        ensures read { IfOk result (λ map.
            SaysNamespace (chars text.now) map.inside_gid map.outside_gid map.count) }
        ensures complete { (inside outside count : ℕ)
            → SaysNamespace (chars text.now) inside outside count
            → IsOkAnd result (λ map.
            (map.inside_gid ≡ inside) × (map.outside_gid ≡ outside) × (map.count ≡ count)) }
        ensures refused { IfErr result (λ e.
            HasNamespaceFault (chars text.now) (namespace_fault_of e)) }
        ensures faulty { (fault : NamespaceFault) → HasNamespaceFault (chars text.now) fault
            → IsErrAnd result (λ e. namespace_fault_of e ≡ fault) }
    {
        let range = Range::from_str(text)?;
        Ok(GidMap {
            inside_gid: range.inside,
            outside_gid: range.outside,
            count: range.count,
        })
    }
}

impl fmt::Display for UidMap {
    ghost use Rattle.std.specs.Prelude.{Some};
    ghost use Rattle.virtiofs_map.specs.Printed.{namespace_text};

    ghost output = { λ map. Some (namespace_text map.inside_uid map.outside_uid map.count) };

    fn fmt<W: fmt::Write>(&self, f: &mut fmt::Formatter<W>) -> fmt::Result {
        write!(
            f,
            ":{}:{}:{}:",
            self.inside_uid, self.outside_uid, self.count
        )
    }
}

impl fmt::Display for GidMap {
    ghost use Rattle.std.specs.Prelude.{Some};
    ghost use Rattle.virtiofs_map.specs.Printed.{namespace_text};

    ghost output = { λ map. Some (namespace_text map.inside_gid map.outside_gid map.count) };

    fn fmt<W: fmt::Write>(&self, f: &mut fmt::Formatter<W>) -> fmt::Result {
        write!(
            f,
            ":{}:{}:{}:",
            self.inside_gid, self.outside_gid, self.count
        )
    }
}
