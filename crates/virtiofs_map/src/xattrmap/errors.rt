//! Why a text of rules is rejected, and why a name or a list of names is.

ghost use Rattle.std.specs.Prelude.{◌≡◌, ◌≢◌, Some, None};
ghost use Rattle.virtiofs_map.specs.declared.xattrmap.errors.ErrorKind.TheVariants.{OutOfMemory};

use std::alloc::{AllocError, AllocFailed, Allocator, Global};
use std::{error, fmt};

/// The field of a rule that names must start with.
#[derive(Clone, Copy, PartialEq, Eq, Debug)]
pub enum PatternField {
    /// What a name from the guest must start with.
    Key,
    /// What a name from the host must start with.
    Prepend,
}

/// What is wrong.
#[derive(Drop)]
#[derive_where(PartialEq, Eq, Debug)]
pub enum ErrorKind<A: Allocator = Global> {
    /// There is no such scope.
    InvalidScope {
        /// What stands in the rule in place of a scope.
        got: String<A>,
        /// The three scopes.
        expected: &'static str,
    },
    /// There is no such type.
    InvalidType {
        /// What stands in the rule in place of a type.
        got: String<A>,
        /// The types that virtiofsd lists here: all except `unsupported`.
        expected: &'static str,
    },
    /// A delimiter differs from the one that its rule began with. Never returned, because any other
    /// character is part of the field.
    InvalidDelimiter,
    /// A field of a rule is not closed by the rule's delimiter.
    IncompleteRule,
    /// Something follows a `map` rule.
    MapRuleViolation,
    /// The text has no rule.
    NoRulesProvided,
    /// No rule decides a name.
    UnterminatedMapping,
    /// A key or a prepend contains U+0000, which no name does.
    NulInPattern {
        /// The field that contains it.
        pattern: PatternField,
    },
    /// An allocation failed.
    OutOfMemory,
}

/// What is wrong, and in which rule.
#[derive(Drop)]
#[derive_where(PartialEq, Eq, Debug)]
pub struct Error<A: Allocator = Global> {
    /// What is wrong.
    pub cause: ErrorKind<A>,
    /// The number of the rule in the text, counted from 1. `None` if no rule is to blame.
    pub rule: Option<usize>,
}

impl<A: Allocator> ErrorKind<A> {
    /// The error of this kind that blames the rule of that number. Out of memory blames no rule.
    pub(crate) fn in_rule(self, number: usize) -> Error<A>
        ensures cause { result.cause ≡ self }
        ensures rule { self ≢ ErrorKind.OutOfMemory → result.rule ≡ Some number }
        ensures memory { self ≡ ErrorKind.OutOfMemory → result.rule ≡ None }
    {
        let rule = match &self {
            ErrorKind::OutOfMemory => None,
            _ => Some(number),
        };
        Error { cause: self, rule }
    }
}

impl<A: Allocator> fmt::Display for ErrorKind<A> {
    ghost use Rattle.virtiofs_map.specs.Printed.{cause_text};

    ghost output = { λ cause. Some (cause_text cause) };

    fn fmt<W: fmt::Write>(&self, f: &mut fmt::Formatter<W>) -> fmt::Result {
        match self {
            ErrorKind::InvalidScope { got, expected } => {
                write!(f, "invalid scope '{got}', expected one of: {expected}")
            }
            ErrorKind::InvalidType { got, expected } => {
                write!(f, "invalid type '{got}', expected one of: {expected}")
            }
            ErrorKind::InvalidDelimiter => write!(f, "the delimiter is not the rule's first"),
            ErrorKind::IncompleteRule => write!(f, "the rule is incomplete"),
            ErrorKind::MapRuleViolation => write!(f, "a map rule has to stand last"),
            ErrorKind::NoRulesProvided => write!(f, "there are no rules"),
            ErrorKind::UnterminatedMapping => write!(f, "no rule fits the name"),
            ErrorKind::NulInPattern { pattern } => match pattern {
                PatternField::Key => write!(f, "Key holds NUL"),
                PatternField::Prepend => write!(f, "Prepend holds NUL"),
            },
            ErrorKind::OutOfMemory => write!(f, "Out of memory"),
        }
    }
}

impl<A: Allocator> error::Error for ErrorKind<A> {}

impl<A: Allocator> fmt::Display for Error<A> {
    ghost use Rattle.virtiofs_map.specs.Printed.{rules_error_text};

    ghost output = { λ error. Some (rules_error_text error) };

    fn fmt<W: fmt::Write>(&self, f: &mut fmt::Formatter<W>) -> fmt::Result {
        let cause = &self.cause;
        match self.rule {
            Some(number) => write!(f, "rule {number}: {cause}"),
            None => write!(f, "{cause}"),
        }
    }
}

impl<A: Allocator> error::Error for Error<A> {}

impl<A: Allocator> From<ErrorKind<A>> for Error<A> {
    ghost from_gives = { λ cause error. error ≡ record { cause = cause; rule = None } };

    fn from(cause: ErrorKind<A>) -> Error<A> {
        Error { cause, rule: None }
    }
}

impl<A: Allocator> From<AllocError> for ErrorKind<A> {
    ghost from_gives = { λ _ cause. cause ≡ OutOfMemory };

    fn from(_refused: AllocError) -> ErrorKind<A> {
        ErrorKind::OutOfMemory
    }
}

impl<A: Allocator> From<AllocError> for Error<A> {
    ghost from_gives = { λ _ error. error ≡ record { cause = OutOfMemory; rule = None } };

    fn from(_refused: AllocError) -> Error<A> {
        Error::from(ErrorKind::OutOfMemory)
    }
}

impl<A: Allocator, T: Drop> From<AllocFailed<T>> for Error<A> {
    ghost from_gives = { λ _ error. error ≡ record { cause = OutOfMemory; rule = None } };

    fn from(_refused: AllocFailed<T>) -> Error<A> {
        Error::from(ErrorKind::OutOfMemory)
    }
}
