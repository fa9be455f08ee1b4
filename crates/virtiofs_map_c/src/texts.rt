//! Texts of ids, as C hands them over: specifications, and ranges of a namespace.
ghost use Rattle.std.specs.Prelude.{◌≡◌, ◌≢◌, ℕ, IsSomeAnd, IfOk, IfErr, OnOk};
ghost use Rattle.std.specs.Str.Parse.{error_kind};
ghost use Rattle.virtiofs_map.specs.NamespaceText.{namespace_fault_of};
ghost use Rattle.virtiofs_map.specs.declared.cmdline.IdMap.{IdMap as Specification};
ghost use Rattle.virtiofs_map_c.specs.Arrays.{said, HasNoTarget};
ghost use Rattle.virtiofs_map_c.specs.Faults.{ok, refused, TellsFault, MakesOrTells, TellsThis, code_of, no_fault, number_kind};
ghost use Rattle.virtiofs_map_c.specs.Texts.{OfText, SaysSpec, TextFault, HasTextFault, IsTextAt, IsTextTold, AllSaySpecs, HasTextsFault, AreTextsTold, SaysRange, RangeFault, HasRangeFault, IsRangeTold};

use crate::arrays::{Spec, spec_of};
use crate::codes::{NO_PART, OK, SPECIFICATION};
use crate::fault::Fault;
use std::alloc::Global;
use std::num::{IntErrorKind, ParseIntError};
use virtiofs_map::{cmdline, idmap};

/// C's `struct virtiofs_range`.
#[repr(C)]
#[derive(Clone, Copy)]
pub struct Range {
    pub inside: u32,
    pub outside: u32,
    pub count: u32,
}

/// The specification that a text in bytes says, which is that part; or what is told of the text.
fn read(
    alloc: Global,
    text: &[u8],
    part: u32,
    place: usize,
    quoted: &mut [u8],
) -> Result<cmdline::IdMap, Fault>
    ensures read { IfOk result (SaysSpec text.now) }
    ensures unquoted { OnOk result (quoted.new ≡ quoted.old) }
    ensures refused { IfErr result (λ told.
        TellsFault (HasTextFault text.now) (IsTextAt part place told quoted.old quoted.new)) }
{
    let text = match str::from_utf8(text) {
        Ok(text) => text,
        Err(_) => return Err(Fault::at(2, part, place)),
    };
    match cmdline::IdMap::from_str(alloc, text) {
        Ok(spec) => Ok(spec),
        Err(cmdline::IdMapError::InvalidPrefix(word)) => {
            Err(Fault::at(6, part, place).quoting(&word, quoted))
        }
        Err(cmdline::IdMapError::InvalidLength { expected, seen }) => Err(Fault {
            expected,
            seen,
            ..Fault::at(7, part, place)
        }),
        Err(cmdline::IdMapError::InvalidValue { value, error }) => Err(Fault {
            number: number_of(&error),
            ..Fault::at(8, part, place).quoting(&value, quoted)
        }),
        Err(cmdline::IdMapError::OutOfMemory) => Err(Fault::of_kind(1)),
    }
}

/// The specifications that texts say, in their order. Stops at the first text that cannot be read.
pub fn read_all(
    alloc: Global,
    texts: &[&[u8]],
    quoted: &mut [u8],
) -> Result<Vec<cmdline::IdMap>, Fault>
    ensures read { IfOk result (λ list. AllSaySpecs texts.now list.items) }
    ensures unquoted { OnOk result (quoted.new ≡ quoted.old) }
    ensures refused { IfErr result (λ told.
        TellsFault (HasTextsFault texts.now) (AreTextsTold (code_of told) told quoted.old quoted.new)) }
{
    let mut list = Vec::new(alloc);
    for (place, text) in texts.iter().enumerate() {
        let spec = read(alloc, text, SPECIFICATION, place, quoted)?;
        list.push(spec)?;
    }
    Ok(list)
}

#[unsafe(no_mangle)]
pub extern "C" fn virtiofs_map_spec_read(
    alloc: Global,
    text: &[u8],
    spec: &mut Spec,
    fault: &mut Fault,
    quoted: &mut [u8],
) -> u32
    ensures read { result ≡ ok → IsSomeAnd (said spec.new) (SaysSpec text.now) }
    ensures no_target { result ≡ ok → HasNoTarget spec.new }
    ensures no_fault { result ≡ ok → fault.new ≡ no_fault }
    ensures unquoted { result ≡ ok → quoted.new ≡ quoted.old }
    ensures keeps { result ≢ ok → spec.new ≡ spec.old }
    ensures refused { result ≢ ok →
        TellsFault (HasTextFault text.now) (IsTextTold result fault.new quoted.old quoted.new) }
    ensures complete { (one : Specification) → SaysSpec text.now one
        → MakesOrTells (result ≡ ok) (IsTextTold result fault.new quoted.old quoted.new) }
    ensures faulty { (wrong : TextFault) → HasTextFault text.now wrong
        → TellsThis (IsTextTold result fault.new quoted.old quoted.new) wrong }
{
    match read(alloc, text, NO_PART, 0, quoted) {
        Ok(found) => {
            *spec = spec_of(found);
            fault.none(OK)
        }
        Err(told) => fault.tell(told),
    }
}

#[unsafe(no_mangle)]
pub extern "C" fn virtiofs_map_range_read(text: &[u8], range: &mut Range, fault: &mut Fault) -> u32
    ensures read { result ≡ ok →
        SaysRange text.now range.new.inside range.new.outside range.new.count }
    ensures no_fault { result ≡ ok → fault.new ≡ no_fault }
    ensures keeps { result ≢ ok → range.new ≡ range.old }
    ensures refused { result ≢ ok → (result ≡ refused)
        × ((wrong : RangeFault) × HasRangeFault text.now wrong × IsRangeTold fault.new wrong) }
    ensures complete { (inside outside count : ℕ) → SaysRange text.now inside outside count
        → result ≡ ok }
    ensures faulty { (wrong : RangeFault) → HasRangeFault text.now wrong
        → (result ≡ refused) × IsRangeTold fault.new wrong }
{
    let text = match str::from_utf8(text) {
        Ok(text) => text,
        Err(_) => return fault.tell(Fault::of_kind(2)),
    };
    match idmap::UidMap::from_str(text) {
        Ok(found) => {
            *range = Range {
                inside: found.inside_uid,
                outside: found.outside_uid,
                count: found.count,
            };
            fault.none(OK)
        }
        Err(error) => fault.tell(told_of_range(&error)),
    }
}

/// What C is told of a text that is no range.
fn told_of_range(error: &idmap::IdMapError) -> Fault
    ensures { IsRangeTold result (OfText (namespace_fault_of error.now)) }
{
    match error {
        idmap::IdMapError::InvalidDelimiter => Fault::of_kind(9),
        idmap::IdMapError::IncompleteMap => Fault::of_kind(10),
        idmap::IdMapError::InvalidValue(error) => Fault {
            number: number_of(error),
            ..Fault::of_kind(11)
        },
    }
}

/// The number of what is wrong with a field that is no number. Only the first three are said of
/// numbers that have no sign and may be 0.
fn number_of(error: &ParseIntError) -> u32
    ensures { result ≡ number_kind (error_kind error.now) }
{
    match error.kind() {
        IntErrorKind::Empty => 0,
        IntErrorKind::InvalidDigit => 1,
        IntErrorKind::PosOverflow | IntErrorKind::NegOverflow | IntErrorKind::Zero => 2,
    }
}
