//! The numbers that calls answer, of values and of parts. The header says under the same names what
//! each of them means.

// codes
pub const OK: u32 = 0;

pub const AS_IT_IS: u32 = 1;

pub const FORBIDDEN: u32 = 2;

pub const DENIED: u32 = 3;

pub const UNSUPPORTED: u32 = 4;

pub const UNTERMINATED: u32 = 5;

pub const REFUSED: u32 = 6;

pub const NO_ROOM: u32 = 7;

pub const NO_MEMORY: u32 = 8;

pub const NO_MAP: u32 = 9;

pub const HIDDEN: u32 = 10;

pub const MERGES: u32 = 11;

pub const ROOT_MOVES: u32 = 12;

pub const NO_ID: u32 = 13;

// which ids the values of an attribute hold
pub const NO_IDS: u32 = 0;

pub const ACL: u32 = 1;

pub const CAPABILITY: u32 = 2;

// which part of what was handed in is at fault
pub const NO_PART: u32 = 0;

pub const SPECIFICATION: u32 = 1;

pub const RULE: u32 = 2;

pub const ACL_VALUE: u32 = 3;

pub const ACL_ENTRY: u32 = 4;

pub const CAPABILITY_VALUE: u32 = 5;
