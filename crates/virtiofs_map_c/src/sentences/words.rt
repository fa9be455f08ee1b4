//! The words of sentences: one row for each fault. A byte below 16 is a hole, in whose place stands
//! what the fault says.

use crate::codes::{ACL_ENTRY, CAPABILITY_VALUE, RULE, SPECIFICATION};
use crate::fault::Fault;

/// The hole for the text at fault.
pub const AT_FAULT: u8 = 3;

/// The number that stands in the place of a hole.
pub fn number_at(hole: u8, fault: &Fault) -> Option<u64> {
    match hole {
        1 => Some(fault.place.saturating_add(1) as u64),
        2 => Some(fault.place as u64),
        4 => Some(fault.expected as u64),
        5 => Some(fault.seen as u64),
        6 => Some(fault.spec.first as u64),
        7 => Some(fault.spec.to as u64),
        8 => Some(fault.spec.count as u64),
        11 => Some(fault.spec.first as u64 + fault.spec.count as u64),
        12 => Some(fault.spec.to as u64 + fault.spec.count as u64),
        _ => None,
    }
}

/// Where the fault is, counted from 1.
pub fn place_words(fault: &Fault) -> &'static str {
    match fault.part {
        SPECIFICATION => "specification \x01: ",
        RULE if fault.place != 0 => "rule \x02: ",
        ACL_ENTRY => "entry \x01: ",
        _ => "",
    }
}

/// What is wrong, in three pieces: the second is a specification, what one sets up, or how a field is
/// no number.
pub fn words_of(fault: &Fault) -> (&'static str, &'static str, &'static str) {
    match fault.kind {
        4 => (
            "Parameter ",
            said_words(fault.spec.kind),
            ": Range overflow",
        ),
        5 => {
            let (front, from_guest) = match fault.direction {
                0 => ("Guest-to-host mapping '", true),
                _ => ("Host-to-guest mapping '", false),
            };
            let entry = entry_words(fault.spec.kind, from_guest);
            (front, entry, "' intersects previously added entry")
        }
        8 => (
            "Invalid value \x03 in ID map: ",
            number_words(fault.number),
            "",
        ),
        11 => ("", number_words(fault.number), ""),
        kind => (plain_words(kind, fault.part == CAPABILITY_VALUE), "", ""),
    }
}

/// What is wrong, by its kind. Lists and capabilities have each their own words for a length.
fn plain_words(kind: u32, of_capability: bool) -> &'static str {
    match kind {
        0 => "there is no fault",
        1 => "Out of memory",
        2 => "the text is not UTF-8",
        3 => "there is no such kind",
        6 => "Invalid ID map prefix \x03",
        7 => "Invalid ID map length (expected \x04 elements, got \x05 elements)",
        9 => "A delimiter has been found that does not match the delimiter the map started with",
        10 => "The map is empty or incorrect number of values are provided",
        12 => "invalid scope '\x03', expected one of: all, client, server",
        13 => "invalid type '\x03', expected one of: prefix, ok, bad, map",
        14 => "the rule is incomplete",
        15 => "a map rule has to stand last",
        16 => "there are no rules",
        17 => "Key holds NUL",
        18 => "Prepend holds NUL",
        19 if of_capability => "the value has no first word",
        19 => "the value has no header",
        20 if of_capability => "the revision is \x05",
        20 => "the version is \x05",
        21 if of_capability => "the length is not that of the revision",
        21 => "the last entry is cut",
        22 => "there are \x04 entries",
        23 => "there is no such tag",
        24 => "the permissions are above 7",
        25 => "4294967295 is no id",
        26 => "use of the id has been configured to fail",
        27 => "the id would become that of an earlier entry",
        28 => "the revision has no id of root",
        _ => "there is no such fault",
    }
}

/// A specification of that kind, as its text says it.
fn said_words(kind: u32) -> &'static str {
    match kind {
        0 => "guest:\x06:\x07:\x08",
        1 => "host:\x06:\x07:\x08",
        2 => "squash-guest:\x06:\x07:\x08",
        3 => "squash-host:\x06:\x07:\x08",
        4 => "map:\x06:\x07:\x08",
        5 => "forbid-guest:\x06:\x08",
        _ => "",
    }
}

/// What a specification of that kind sets up in one direction, if it does.
fn entry_words(kind: u32, from_guest: bool) -> &'static str {
    match (kind, from_guest) {
        (0, true) | (1, false) | (4, true) => "map [\x06, \x0b) to [\x07, \x0c)",
        (4, false) => "map [\x07, \x0c) to [\x06, \x0b)",
        (2, true) | (3, false) => "squash [\x06, \x0b) to \x07",
        (5, true) => "fail [\x06, \x0b)",
        _ => "",
    }
}

/// How a field is no number below 2^32.
fn number_words(number: u32) -> &'static str {
    match number {
        0 => "cannot parse integer from empty string",
        1 => "invalid digit found in string",
        _ => "number too large to fit in target type",
    }
}
