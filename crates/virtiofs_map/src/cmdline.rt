//! Specifications of an id mapping, as a command line gives them.
//!
//! A specification is a word, a separator and decimal numbers with that separator between them, as
//! `map:0:1000:10`. The separator is any character that is not alphanumeric, `-` or `_`.

use std::alloc::{AllocError, AllocFailed, Allocator, Global};
use std::fmt;
use std::num::ParseIntError;
use thiserror::Error;

/// One specification of a mapping between guest ids and host ids.
#[derive(Clone, Copy, Debug, PartialEq, Eq)]
pub enum IdMap {
    /// `guest:FROM:TO:COUNT`: maps `count` guest ids, starting with `from_guest`: the guest id
    /// `from_guest + i` becomes the host id `to_host + i`.
    Guest {
        /// The first guest id.
        from_guest: u32,
        /// The host id that it becomes.
        to_host: u32,
        /// How many guest ids are mapped; 0 maps none.
        count: u32,
    },

    /// `host:FROM:TO:COUNT`: maps `count` host ids, starting with `from_host`: the host id
    /// `from_host + i` becomes the guest id `to_guest + i`.
    Host {
        /// The first host id.
        from_host: u32,
        /// The guest id that it becomes.
        to_guest: u32,
        /// How many host ids are mapped; 0 maps none.
        count: u32,
    },

    /// `squash-guest:FROM:TO:COUNT`: each of `count` guest ids, from `from_guest` on, becomes the one
    /// host id `to_host`.
    SquashGuest {
        /// The first guest id.
        from_guest: u32,
        /// The host id that each becomes.
        to_host: u32,
        /// How many guest ids are mapped; 0 maps none.
        count: u32,
    },

    /// `squash-host:FROM:TO:COUNT`: each of `count` host ids, from `from_host` on, becomes the one
    /// guest id `to_guest`.
    SquashHost {
        /// The first host id.
        from_host: u32,
        /// The guest id that each becomes.
        to_guest: u32,
        /// How many host ids are mapped; 0 maps none.
        count: u32,
    },

    /// `map:GUEST:HOST:COUNT`: what `guest:GUEST:HOST:COUNT` and `host:HOST:GUEST:COUNT` do
    /// together.
    Bidirectional {
        /// The first guest id.
        guest: u32,
        /// The first host id.
        host: u32,
        /// How many ids are mapped either way; 0 maps none.
        count: u32,
    },

    /// `forbid-guest:FROM:COUNT`: each of `count` guest ids, from `from_guest` on, is forbidden.
    ForbidGuest {
        /// The first guest id.
        from_guest: u32,
        /// How many guest ids are forbidden; 0 forbids none.
        count: u32,
    },
}

/// A specification is printed with its word in lower case, `:` for its separator, and its numbers
/// in plain decimal.
impl fmt::Display for IdMap {
    ghost use Rattle.std.specs.Prelude.{Some};
    ghost use Rattle.virtiofs_map.specs.Printed.{specification_text};

    ghost output = { λ spec. Some (specification_text spec) };

    fn fmt<W: fmt::Write>(&self, f: &mut fmt::Formatter<W>) -> fmt::Result {
        match *self {
            IdMap::Guest {
                from_guest,
                to_host,
                count,
            } => write!(f, "guest:{from_guest}:{to_host}:{count}"),
            IdMap::Host {
                from_host,
                to_guest,
                count,
            } => write!(f, "host:{from_host}:{to_guest}:{count}"),
            IdMap::SquashGuest {
                from_guest,
                to_host,
                count,
            } => write!(f, "squash-guest:{from_guest}:{to_host}:{count}"),
            IdMap::SquashHost {
                from_host,
                to_guest,
                count,
            } => write!(f, "squash-host:{from_host}:{to_guest}:{count}"),
            IdMap::Bidirectional { guest, host, count } => write!(f, "map:{guest}:{host}:{count}"),
            IdMap::ForbidGuest { from_guest, count } => {
                write!(f, "forbid-guest:{from_guest}:{count}")
            }
        }
    }
}

/// Why a text is no specification.
#[derive(Debug, Drop, Error)]
pub enum IdMapError<A: Allocator = Global> {
    /// The word is none of the six. Contains the word, with its ASCII letters in lower case.
    #[error("Invalid ID map prefix {0}")]
    InvalidPrefix(String<A>),

    /// The count of numbers is not the one that the word takes. If there is no separator after the
    /// word, `expected` is 1 and `seen` is 0, as in virtiofsd.
    #[error("Invalid ID map length (expected {expected} elements, got {seen} elements)")]
    InvalidLength {
        /// How many numbers the word takes.
        expected: usize,
        /// How many numbers there are.
        seen: usize,
    },

    /// A field is no number from 0 to 4294967295.
    #[error("Invalid value {value} in ID map: {error}")]
    InvalidValue {
        /// The first such field.
        value: String<A>,
        /// What is wrong with that field.
        error: ParseIntError,
    },

    /// An allocation failed.
    #[error("Out of memory")]
    OutOfMemory,
}

impl<A: Allocator> From<AllocError> for IdMapError<A> {
    ghost use Rattle.std.specs.Prelude.{◌≡◌};
    ghost use Rattle.virtiofs_map.specs.declared.cmdline.IdMapError.TheVariants.{OutOfMemory};

    ghost from_gives = { λ _ r. r ≡ OutOfMemory };

    fn from(_error: AllocError) -> IdMapError<A> {
        IdMapError::OutOfMemory
    }
}

impl<T: Drop, A: Allocator> From<AllocFailed<T>> for IdMapError<A> {
    ghost use Rattle.std.specs.Prelude.{◌≡◌};
    ghost use Rattle.virtiofs_map.specs.declared.cmdline.IdMapError.TheVariants.{OutOfMemory};

    ghost from_gives = { λ _ r. r ≡ OutOfMemory };

    fn from(_error: AllocFailed<T>) -> IdMapError<A> {
        IdMapError::OutOfMemory
    }
}

pub mod laws;
mod reader;
