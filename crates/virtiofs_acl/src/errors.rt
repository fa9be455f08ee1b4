//! Why a value does not go across.
ghost use Rattle.std.specs.Prelude.{◌≡◌};
ghost use Rattle.virtiofs_acl.specs.AclPrinted.{entry_fault_text};

use std::error::Error;
use std::fmt;

/// What is wrong with an entry of an access control list.
#[derive(Clone, Copy, Debug, PartialEq, Eq)]
pub enum EntryFault {
    /// The tag is none of 1, 2, 4, 8, 16 and 32.
    UnknownTag,
    /// The permissions are a number above 7.
    Permission,
    /// The id is 4294967295, or becomes it, which is no id to Linux.
    NoId,
    /// A specification forbids the id.
    Forbidden,
    /// An earlier entry of the same tag has another id, and both ids would become one.
    Merges,
}

/// Why an access control list does not go across: the first fault, in the order of these tests.
#[derive(Clone, Copy, Debug, Drop, PartialEq, Eq)]
pub enum AclError {
    /// The value is shorter than its header of 4 bytes.
    TooShort,
    /// The header says another version than 2.
    Version {
        /// The version that the header says.
        version: u32,
    },
    /// What follows the header is no whole number of entries of 8 bytes.
    Length,
    /// The room that was lent is for fewer entries than the value has.
    Room {
        /// How many entries the value has.
        needed: usize,
    },
    /// An entry is at fault: the first one that is wrong by itself, or else the first one that
    /// merges with an earlier one.
    Entry {
        /// The number of the entry, from 0.
        entry: usize,
        /// What is wrong with the entry.
        fault: EntryFault,
    },
}

/// Why a capability does not go across: the first fault, in the order of these tests.
#[derive(Clone, Copy, Debug, Drop, PartialEq, Eq)]
pub enum CapabilityError {
    /// The value is shorter than its first word of 4 bytes.
    TooShort,
    /// The first word has another revision than 1, 2 and 3.
    Revision {
        /// The revision that the first word has.
        revision: u8,
    },
    /// The value is not as long as its revision asks: 12 bytes, 20 or 24.
    Length,
    /// The id of root is 4294967295, or becomes it, which is no id to Linux.
    NoId,
    /// A specification forbids the id of root.
    Forbidden,
    /// The revision is 1 or 2, which have no field for the id of root, and 0 would not stay 0.
    RootMoves,
}

/// What is wrong with an entry, after a colon.
fn name_of(fault: EntryFault) -> &'static str
    ensures { result.now ≡ entry_fault_text fault }
{
    match fault {
        EntryFault::UnknownTag => "there is no such tag",
        EntryFault::Permission => "the permissions are above 7",
        EntryFault::NoId => "4294967295 is no id",
        EntryFault::Forbidden => "use of the id has been configured to fail",
        EntryFault::Merges => "the id would become that of an earlier entry",
    }
}

impl fmt::Display for AclError {
    ghost use Rattle.std.specs.Prelude.{Some};
    ghost use Rattle.virtiofs_acl.specs.AclPrinted.{acl_error_text};

    ghost output = { λ error. Some (acl_error_text error) };

    fn fmt<W: fmt::Write>(&self, f: &mut fmt::Formatter<W>) -> fmt::Result {
        match *self {
            AclError::TooShort => write!(f, "the value has no header"),
            AclError::Version { version } => write!(f, "the version is {version}"),
            AclError::Length => write!(f, "the last entry is cut"),
            AclError::Room { needed } => write!(f, "there are {needed} entries"),
            AclError::Entry { entry, fault } => {
                let name = name_of(fault);
                write!(f, "entry {entry}: {name}")
            }
        }
    }
}

impl Error for AclError {}

impl fmt::Display for CapabilityError {
    ghost use Rattle.std.specs.Prelude.{Some};
    ghost use Rattle.virtiofs_acl.specs.AclPrinted.{capability_error_text};

    ghost output = { λ error. Some (capability_error_text error) };

    fn fmt<W: fmt::Write>(&self, f: &mut fmt::Formatter<W>) -> fmt::Result {
        match *self {
            CapabilityError::TooShort => write!(f, "the value has no first word"),
            CapabilityError::Revision { revision } => write!(f, "the revision is {revision}"),
            CapabilityError::Length => write!(f, "the length is not that of the revision"),
            CapabilityError::NoId => write!(f, "4294967295 is no id"),
            CapabilityError::Forbidden => write!(f, "use of the id has been configured to fail"),
            CapabilityError::RootMoves => write!(f, "the revision has no id of root"),
        }
    }
}

impl Error for CapabilityError {}
