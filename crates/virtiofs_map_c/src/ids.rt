//! Maps of ids, in the caller's words.
ghost use Rattle.std.specs.Option.{option_map_or};
ghost use Rattle.std.specs.Prelude.{◌≡◌, ◌≢◌, ◌⊎◌, ℕ, ◌+◌, ◌*◌, ◌≤◌, length, min, List, Option};
ghost use Rattle.virtiofs_map.specs.Build.{HasFirstFault};
ghost use Rattle.virtiofs_map.specs.Mapping.{Becomes};
ghost use Rattle.virtiofs_map.specs.declared.cmdline.IdMap.{IdMap as Specification};
ghost use Rattle.virtiofs_map.specs.declared.soft_idmap.entry.Direction.TheVariants.{GuestToHost, HostToGuest};
ghost use Rattle.virtiofs_map_c.specs.Arrays.{AreSaid, ArrayFault, HasArrayFault, IsAccepted};
ghost use Rattle.virtiofs_map_c.specs.Faults.{ok, no_map, TellsFault, MakesOrTells, TellsThis, IsArrayTold, IsAnswered, no_fault, code_of, build_told, memory_fault};
ghost use Rattle.virtiofs_map_c.specs.Ids.{AnswersId, TellsId, LeadsBackIfMapped, IsIdCode, IsAnswerTold};
ghost use Rattle.virtiofs_map_c.specs.Texts.{AllSaySpecs, AreAccepted, TextsFault, HasTextsFault, AreTextsTold};
ghost use Rattle.virtiofs_map_c.specs.Wholes.{IsIdMap, IsNoIdMap, TellsImage, cleared};

mod audits;

use crate::arrays::{Spec, read_all};
use crate::codes::{FORBIDDEN, NO_ID, NO_MAP, NO_ROOM, OK};
use crate::fault::Fault;
use crate::texts::read_all as read_texts;
use crate::words::{Words, are_all, clear};
use std::alloc::Global;
use virtiofs_map::cmdline;
use virtiofs_map::soft_idmap::Direction;
use virtiofs_map::soft_idmap::image::{Answer, look_up, most_words, write_image};

#[unsafe(no_mangle)]
pub extern "C" fn virtiofs_map_ids_bound(count: usize) -> usize
    ensures { result ≡ min (4 + 8 * count) 18446744073709551615 }
{
    most_words(count)
}

/// Tells why there is no map, and leaves words that are none.
fn fail(told: Fault, words: &mut [u32], wanted: &mut usize, fault: &mut Fault) -> u32
    ensures code { result ≡ code_of told }
    ensures told { fault.new ≡ told }
    ensures keeps { (wanted.new ≡ 0) × (words.new ≡ cleared words.old) }
{
    *wanted = 0;
    clear(words);
    fault.tell(told)
}

/// Writes the map of a list, and tells how many words it has.
fn make(
    alloc: Global,
    list: &[cmdline::IdMap],
    words: &mut [u32],
    wanted: &mut usize,
    fault: &mut Fault,
) -> u32
    ensures made { IsAnswered result → TellsImage list.now words.old result wanted.new words.new }
    ensures no_fault { IsAnswered result → fault.new ≡ no_fault }
    ensures bound { wanted.new ≤ 4 + 8 * length list.now }
    ensures keeps { (¬ IsAnswered result) → (wanted.new ≡ 0) × (words.new ≡ cleared words.old) }
    ensures refused { IsAnswered result ⊎ ((result ≡ code_of fault.new)
        × TellsFault (HasFirstFault list.now) (λ wrong. fault.new ≡ option_map_or build_told wrong memory_fault)) }
{
    let len = match write_image(alloc, list, words) {
        Ok(len) => len,
        Err(error) => return fail(Fault::from(error), words, wanted, fault),
    };
    *wanted = len;
    if words.len() < len {
        clear(words);
        return fault.none(NO_ROOM);
    }
    fault.none(OK)
}

#[unsafe(no_mangle)]
pub extern "C" fn virtiofs_map_ids_make(
    alloc: Global,
    specs: &[Spec],
    words: &mut [u32],
    wanted: &mut usize,
    fault: &mut Fault,
) -> u32
    ensures made { IsAnswered result → (list : List Specification) × AreSaid specs.now list
        × TellsImage list words.old result wanted.new words.new }
    ensures no_fault { IsAnswered result → fault.new ≡ no_fault }
    ensures bound { wanted.new ≤ 4 + 8 * length specs.now }
    ensures keeps { (¬ IsAnswered result) → (wanted.new ≡ 0) × (words.new ≡ cleared words.old) }
    ensures refused { (¬ IsAnswered result) →
        TellsFault (HasArrayFault specs.now) (IsArrayTold result fault.new) }
    ensures complete { IsAccepted specs.now
        → MakesOrTells (IsAnswered result) (IsArrayTold result fault.new) }
    ensures faulty { (wrong : ArrayFault) → HasArrayFault specs.now wrong
        → TellsThis (IsArrayTold result fault.new) wrong }
{
    match read_all(alloc, specs) {
        Ok(list) => make(alloc, &list, words, wanted, fault),
        Err(told) => fail(told, words, wanted, fault),
    }
}

#[unsafe(no_mangle)]
pub extern "C" fn virtiofs_map_ids_make_texts(
    alloc: Global,
    texts: &[&[u8]],
    words: &mut [u32],
    wanted: &mut usize,
    fault: &mut Fault,
    quoted: &mut [u8],
) -> u32
    ensures made { IsAnswered result → (list : List Specification) × AllSaySpecs texts.now list
        × TellsImage list words.old result wanted.new words.new }
    ensures no_fault { IsAnswered result → fault.new ≡ no_fault }
    ensures unquoted { IsAnswered result → quoted.new ≡ quoted.old }
    ensures bound { wanted.new ≤ 4 + 8 * length texts.now }
    ensures keeps { (¬ IsAnswered result) → (wanted.new ≡ 0) × (words.new ≡ cleared words.old) }
    ensures refused { (¬ IsAnswered result) →
        TellsFault (HasTextsFault texts.now)
        (AreTextsTold result fault.new quoted.old quoted.new) }
    ensures complete { AreAccepted texts.now → MakesOrTells (IsAnswered result)
        (AreTextsTold result fault.new quoted.old quoted.new) }
    ensures faulty { (wrong : TextsFault) → HasTextsFault texts.now wrong
        → TellsThis (AreTextsTold result fault.new quoted.old quoted.new) wrong }
{
    match read_texts(alloc, texts, quoted) {
        Ok(list) => make(alloc, &list, words, wanted, fault),
        Err(told) => fail(told, words, wanted, fault),
    }
}

/// Writes what an answer says of an id. 4294967295 is never written: a system call that sets an
/// owner takes it for "leave unchanged".
fn tell_answer(answer: Answer, id: u32, place: &mut u32) -> u32
    ensures { IsAnswerTold answer id place.old result place.new }
{
    let value = match answer {
        Answer::Becomes(value) => value,
        Answer::Fails => return FORBIDDEN,
        Answer::NoImage => return NO_MAP,
    };
    if id == u32::MAX || value == u32::MAX {
        return NO_ID;
    }
    *place = value;
    OK
}

#[unsafe(no_mangle)]
pub extern "C" fn virtiofs_map_ids_to_host(words: Words<'_>, guest: u32, host: &mut u32) -> u32
    ensures answer { (specs : List Specification) → IsIdMap specs words.entry.lent.now
        → AnswersId specs GuestToHost guest host.old result host.new }
    ensures exact { (specs : List Specification) (value : Option ℕ)
        → IsIdMap specs words.entry.lent.now
        → Becomes specs GuestToHost guest value → TellsId guest value host.old result host.new }
    ensures leads_back { (specs : List Specification) → IsIdMap specs words.entry.lent.now
        → LeadsBackIfMapped specs GuestToHost guest result host.new }
    ensures no_id { guest ≡ 4294967295 → result ≢ ok }
    ensures code { IsIdCode host.old result host.new }
    ensures no_map { IsNoIdMap words.entry.lent.now → result ≡ no_map }
{
    // (where this is passed, the test of the lookup itself is none)
    if !are_all(words.lent) {
        return NO_MAP;
    }
    let answer = look_up(words.lent, Direction::GuestToHost, guest);
    tell_answer(answer, guest, host)
}

#[unsafe(no_mangle)]
pub extern "C" fn virtiofs_map_ids_to_guest(words: Words<'_>, host: u32, guest: &mut u32) -> u32
    ensures answer { (specs : List Specification) → IsIdMap specs words.entry.lent.now
        → AnswersId specs HostToGuest host guest.old result guest.new }
    ensures exact { (specs : List Specification) (value : Option ℕ)
        → IsIdMap specs words.entry.lent.now
        → Becomes specs HostToGuest host value → TellsId host value guest.old result guest.new }
    ensures leads_back { (specs : List Specification) → IsIdMap specs words.entry.lent.now
        → LeadsBackIfMapped specs HostToGuest host result guest.new }
    ensures no_id { host ≡ 4294967295 → result ≢ ok }
    ensures code { IsIdCode guest.old result guest.new }
    ensures no_map { IsNoIdMap words.entry.lent.now → result ≡ no_map }
{
    if !are_all(words.lent) {
        return NO_MAP;
    }
    let answer = look_up(words.lent, Direction::HostToGuest, host);
    tell_answer(answer, host, guest)
}
