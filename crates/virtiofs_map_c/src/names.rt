//! Maps of attribute names, in the caller's bytes.
ghost use Rattle.std.specs.List.{before_first};
ghost use Rattle.std.specs.Prelude.{◌≡◌, ◌≢◌, ◌==◌, ◌↔◌, ◌≤◌, ◌+◌, ◌*◌, ℕ, List, length, IsTrue, false, min, IfOk, IfErr, OnErr, OnOk};
ghost use Rattle.std.specs.Option.{option_map};
ghost use Rattle.virtiofs_map.specs.Audit.{HasFault, IsLost, IsStray, IsSeen, IsShared, Terminated};
ghost use Rattle.virtiofs_map.specs.LookupAnswers.{IsDecidedBy};
ghost use Rattle.virtiofs_map.specs.Names.{server_answer};
ghost use Rattle.virtiofs_map.specs.NamesImage.{image_length};
ghost use Rattle.virtiofs_map.specs.Refusal.{OutOfMemoryOr};
ghost use Rattle.virtiofs_map.specs.Rule.{MappingRule, Okay, Prefix};
ghost use Rattle.virtiofs_map.specs.RulesFault.{NotOfText, rules_fault_of};
ghost use Rattle.virtiofs_map_c.specs.Faults.{ok, as_it_is, no_map, IsAnswered, TellsFault, MakesOrTells, TellsThis, code_of, no_fault};
ghost use Rattle.virtiofs_map_c.specs.Names.{AnswersClient, IsClientCode, TellsNames, TellsServer, TellsLeast, TellsNo, IsShownCode, TellsShown, shown_as, shown_list};
ghost use Rattle.virtiofs_map_c.specs.Replies.{IsQuoted};
ghost use Rattle.virtiofs_map_c.specs.Texts.{OfText, BytesSayRules, BytesFault, HasBytesFault, IsBytesTold, bytes_told, bytes_quoted};
ghost use Rattle.virtiofs_map_c.specs.Wholes.{IsNameMap, IsNoNameMap, cleared};

mod lookups;
mod shown;

use crate::buffer::{nothing, write};
use crate::bytes::{Bytes, Room, all_of, are_all, before_zero, clear};
use crate::codes::{HIDDEN, NO_MAP, NO_ROOM, OK, RULE, UNTERMINATED};
use crate::fault::Fault;
use lookups::{tell, tell_client, tell_list, tell_none};
use shown::{Shown, seen, write_shown};
use std::alloc::Global;
use virtiofs_map::audit::{NameFault, ask};
use virtiofs_map::xattrmap::image::{ImageWritten, decide, is_terminated, most_bytes, write_list};
use virtiofs_map::xattrmap::{
    Error, ErrorKind, PatternField, Side, XattrMap, XattrMapRef, XattrName,
};

#[unsafe(no_mangle)]
pub extern "C" fn virtiofs_map_names_bound(text_len: usize) -> usize
    ensures bound { result ≡ min (512 + 64 * text_len) 18446744073709551615 }
    ensures enough { (text : List ℕ) (rules : List MappingRule) → BytesSayRules text rules
        → length text ≤ text_len → min (image_length rules) 18446744073709551615 ≤ result }
{
    most_bytes(text_len)
}

/// Writes the map of a text, and tells how many bytes it has.
fn made(
    alloc: Global,
    text: &[u8],
    bytes: &mut [u8],
    wanted: &mut usize,
    quoted: &mut [u8],
) -> Result<u32, Fault>
    ensures made { IfOk result (λ code. (rules : List MappingRule) × BytesSayRules text.now rules
        × TellsNames rules bytes.old code wanted.new bytes.new) }
    ensures unquoted { OnOk result (quoted.new ≡ quoted.old) }
    ensures refused { IfErr result (λ told. TellsFault (HasBytesFault text.now)
        (IsBytesTold (code_of told) told quoted.old quoted.new)) }
    ensures keeps { OnErr result (bytes.new ≡ bytes.old) }
{
    let text = match str::from_utf8(text) {
        Ok(text) => text,
        Err(_) => return Err(Fault::at(2, RULE, 0)),
    };
    let map = match XattrMap::try_from(alloc, text) {
        Ok(map) => map,
        Err(error) => return Err(told_of_rules(&error, quoted)),
    };
    match map.write_image(bytes) {
        ImageWritten::Written(count) => {
            *wanted = count;
            Ok(OK)
        }
        ImageWritten::NoRoom(count) => {
            clear(bytes);
            *wanted = count;
            Ok(NO_ROOM)
        }
        ImageWritten::TooLong => Err(Fault::of_kind(1)),
    }
}

/// What C is told of an error of a text of rules.
fn told_of_rules(error: &Error, quoted: &mut [u8]) -> Fault
    requires { OutOfMemoryOr (rules_fault_of error.now) (λ fault. fault ≢ NotOfText) }
    ensures told { result
        ≡ bytes_told (length quoted.old) (option_map OfText (rules_fault_of error.now)) }
    ensures quoted { IsQuoted
        (bytes_quoted (option_map OfText (rules_fault_of error.now))) quoted.old quoted.new }
{
    let number = error.rule.unwrap_or(0);
    match &error.cause {
        ErrorKind::InvalidScope { got, .. } => Fault::at(12, RULE, number).quoting(got, quoted),
        ErrorKind::InvalidType { got, .. } => Fault::at(13, RULE, number).quoting(got, quoted),
        ErrorKind::IncompleteRule => Fault::at(14, RULE, number),
        ErrorKind::MapRuleViolation => Fault::at(15, RULE, number),
        ErrorKind::NoRulesProvided => Fault::at(16, RULE, 0),
        ErrorKind::NulInPattern {
            pattern: PatternField::Key,
        } => Fault::at(17, RULE, number),
        ErrorKind::NulInPattern {
            pattern: PatternField::Prepend,
        } => Fault::at(18, RULE, number),
        ErrorKind::OutOfMemory => Fault::of_kind(1),
        _ => Fault::of_kind(0),
    }
}

#[unsafe(no_mangle)]
pub extern "C" fn virtiofs_map_names_make(
    alloc: Global,
    text: &[u8],
    bytes: &mut [u8],
    wanted: &mut usize,
    fault: &mut Fault,
    quoted: &mut [u8],
) -> u32
    ensures made { IsAnswered result → (rules : List MappingRule) × BytesSayRules text.now rules
        × TellsNames rules bytes.old result wanted.new bytes.new }
    ensures no_fault { IsAnswered result → fault.new ≡ no_fault }
    ensures unquoted { IsAnswered result → quoted.new ≡ quoted.old }
    ensures keeps { (¬ IsAnswered result) → (wanted.new ≡ 0) × (bytes.new ≡ cleared bytes.old) }
    ensures refused { (¬ IsAnswered result) →
        TellsFault (HasBytesFault text.now) (IsBytesTold result fault.new quoted.old quoted.new) }
    ensures complete { (rules : List MappingRule) → BytesSayRules text.now rules
        → MakesOrTells (IsAnswered result) (IsBytesTold result fault.new quoted.old quoted.new) }
    ensures faulty { (wrong : BytesFault) → HasBytesFault text.now wrong
        → TellsThis (IsBytesTold result fault.new quoted.old quoted.new) wrong }
{
    match made(alloc, text, bytes, wanted, quoted) {
        Ok(code) => fault.none(code),
        Err(told) => {
            *wanted = 0;
            clear(bytes);
            fault.tell(told)
        }
    }
}

#[unsafe(no_mangle)]
pub extern "C" fn virtiofs_map_name_to_host_bytes(
    bytes: Bytes<'_>,
    name: Bytes<'_>,
    out: Room<'_>,
    len: &mut usize,
) -> u32
    ensures answer { (rules : List MappingRule) → IsNameMap rules bytes.entry.lent.now
        → AnswersClient rules name.entry.lent.now out.entry.lent.now result len.new out.exit.0.now }
    ensures okay { (rules : List MappingRule) → IsNameMap rules bytes.entry.lent.now
        → IsDecidedBy Okay rules name.entry.lent.now → result ≡ as_it_is }
    ensures prefix { (rules : List MappingRule) → IsNameMap rules bytes.entry.lent.now
        → IsDecidedBy Prefix rules name.entry.lent.now → result ≢ as_it_is }
    ensures code { IsClientCode result }
    ensures no_map { IsNoNameMap bytes.entry.lent.now → result ≡ no_map }
{
    // (written first, since after that only a prepend needs its place)
    *len = 0;
    if !are_all(bytes.lent) {
        return NO_MAP;
    }
    let decision = decide(bytes.lent, Side::Client, name.lent);
    tell_client(decision, name.lent, out.lent, len)
}

#[unsafe(no_mangle)]
pub extern "C" fn virtiofs_map_list_to_guest(
    bytes: Bytes<'_>,
    list: Bytes<'_>,
    out: Room<'_>,
    len: &mut usize,
) -> u32
    ensures answer { (rules : List MappingRule) → IsNameMap rules bytes.entry.lent.now
        → TellsServer (shown_list rules list.entry.lent.now)
        out.entry.lent.now result len.new out.exit.0.now }
    ensures no_map { IsNoNameMap bytes.entry.lent.now → result ≡ no_map }
{
    tell_list(write_shown(all_of(bytes.lent), list.lent, out.lent), len)
}

#[unsafe(no_mangle)]
pub extern "C" fn virtiofs_map_name_to_guest(
    bytes: Bytes<'_>,
    name: Bytes<'_>,
    out: Room<'_>,
    len: &mut usize,
) -> u32
    ensures answer { (rules : List MappingRule) → IsNameMap rules bytes.entry.lent.now
        → TellsShown (shown_as rules (before_first (λ byte. byte == 0) name.entry.lent.now))
        out.entry.lent.now result len.new out.exit.0.now }
    ensures code { IsShownCode result }
    ensures no_map { IsNoNameMap bytes.entry.lent.now → result ≡ no_map }
{
    match seen(all_of(bytes.lent), before_zero(name.lent)) {
        Shown::NoMap => nothing(NO_MAP, len),
        Shown::Undecided => nothing(UNTERMINATED, len),
        Shown::Hidden => nothing(HIDDEN, len),
        Shown::Name(name) => write(name, OK, out.lent, len),
    }
}

#[unsafe(no_mangle)]
pub extern "C" fn virtiofs_map_server_xattrlist(
    bytes: Bytes<'_>,
    list: Bytes<'_>,
    out: Room<'_>,
    len: &mut usize,
) -> u32
    ensures answer { (rules : List MappingRule) → IsNameMap rules bytes.entry.lent.now
        → TellsServer (server_answer rules list.entry.lent.now)
        out.entry.lent.now result len.new out.exit.0.now }
    ensures no_map { IsNoNameMap bytes.entry.lent.now → result ≡ no_map }
{
    tell_list(write_list(all_of(bytes.lent), list.lent, out.lent), len)
}

#[unsafe(no_mangle)]
pub extern "C" fn virtiofs_map_names_is_terminated(bytes: &[u8], all: &mut bool) -> u32
    ensures done { (rules : List MappingRule) → IsNameMap rules bytes.now → result ≡ ok }
    ensures answer { (rules : List MappingRule) → IsNameMap rules bytes.now
        → IsTrue all.new ↔ Terminated rules }
    ensures no_map { IsNoNameMap bytes.now → result ≡ no_map }
    ensures none { result ≡ no_map → all.new ≡ false }
{
    let terminated = is_terminated(all_of(bytes));
    *all = terminated == Some(true);
    if terminated.is_some() { OK } else { NO_MAP }
}

/// Asks whether a name has a fault under a first map, where another guest has the second.
fn ask_all(
    alloc: Global,
    fault: NameFault,
    first: &[u8],
    second: &[u8],
    all: &mut bool,
    out: &mut [u8],
    len: &mut usize,
) -> u32
    ensures answer { (rules others : List MappingRule) → IsNameMap rules first.now
        → IsNameMap others second.now
        → TellsLeast (HasFault fault rules others) out.old result all.new len.new out.new }
    ensures no_map { IsNoNameMap first.now
        → TellsNo no_map out.old result all.new len.new out.new }
    ensures no_other { IsNoNameMap second.now
        → TellsNo no_map out.old result all.new len.new out.new }
{
    let Some(one) = XattrMapRef::of(all_of(first)) else {
        return tell_none(NO_MAP, all, len);
    };
    let Some(other) = XattrMapRef::of(all_of(second)) else {
        return tell_none(NO_MAP, all, len);
    };
    let beginning = XattrName { bytes: &[] };
    tell(ask(alloc, fault, one, other, beginning), all, out, len)
}

#[unsafe(no_mangle)]
pub extern "C" fn virtiofs_map_names_audit(
    alloc: Global,
    bytes: &[u8],
    all: &mut bool,
    out: &mut [u8],
    len: &mut usize,
) -> u32
    ensures answer { (rules : List MappingRule) → IsNameMap rules bytes.now
        → TellsLeast (IsLost rules) out.old result all.new len.new out.new }
    ensures no_map { IsNoNameMap bytes.now → TellsNo no_map out.old result all.new len.new out.new }
{
    ask_all(alloc, NameFault::Lost, bytes, bytes, all, out, len)
}

#[unsafe(no_mangle)]
pub extern "C" fn virtiofs_map_names_audit_listed(
    alloc: Global,
    bytes: &[u8],
    all: &mut bool,
    out: &mut [u8],
    len: &mut usize,
) -> u32
    ensures answer { (rules : List MappingRule) → IsNameMap rules bytes.now
        → TellsLeast (IsStray rules) out.old result all.new len.new out.new }
    ensures no_map { IsNoNameMap bytes.now → TellsNo no_map out.old result all.new len.new out.new }
{
    ask_all(alloc, NameFault::Stray, bytes, bytes, all, out, len)
}

#[unsafe(no_mangle)]
pub extern "C" fn virtiofs_map_names_keeps_apart(
    alloc: Global,
    first: &[u8],
    second: &[u8],
    all: &mut bool,
    out: &mut [u8],
    len: &mut usize,
) -> u32
    ensures answer { (rules others : List MappingRule) → IsNameMap rules first.now
        → IsNameMap others second.now
        → TellsLeast (IsSeen rules others) out.old result all.new len.new out.new }
    ensures no_map { IsNoNameMap first.now → TellsNo no_map out.old result all.new len.new out.new }
    ensures no_other { IsNoNameMap second.now
        → TellsNo no_map out.old result all.new len.new out.new }
{
    ask_all(alloc, NameFault::Seen, first, second, all, out, len)
}

#[unsafe(no_mangle)]
pub extern "C" fn virtiofs_map_names_shares_no_name(
    alloc: Global,
    first: &[u8],
    second: &[u8],
    all: &mut bool,
    out: &mut [u8],
    len: &mut usize,
) -> u32
    ensures answer { (rules others : List MappingRule) → IsNameMap rules first.now
        → IsNameMap others second.now
        → TellsLeast (IsShared rules others) out.old result all.new len.new out.new }
    ensures no_map { IsNoNameMap first.now → TellsNo no_map out.old result all.new len.new out.new }
    ensures no_other { IsNoNameMap second.now
        → TellsNo no_map out.old result all.new len.new out.new }
{
    ask_all(alloc, NameFault::Shared, first, second, all, out, len)
}
