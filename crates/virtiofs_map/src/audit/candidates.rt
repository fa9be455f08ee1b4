//! Which names an audit tries.
//!
//! Two names are treated alike where the same patterns begin them, and where the same patterns
//! begin what they become on the other side. So the names to try are made of patterns: the patterns
//! of their own side, and what the patterns of the other side come to once a rule's prepend is taken
//! off or put before them. For all names that begin with none of these, the names of one byte stand.
//!
//! Where the other guest's names count, the patterns of the other side are what a name of the host
//! begins with that a rule lets through: what the rule puts before a name, and then its key.
//!
//! The patterns that begin with a prepend stand together in the order of their bytes. So no more
//! names are tried than the patterns have bytes, and rules that put the same before a name are one.

ghost use Rattle.std.specs.Prelude.{◌≡◌, ◌<◌, ◌*◌, List, IfOk, IsTrue, OnErr, OnOk, length};
ghost use Rattle.virtiofs_map.specs.Audit.{AnswersLeast, most_tried};
ghost use Rattle.virtiofs_map.specs.AuditParts.{AllTried, AreOrdered, CountsBefore, IsAskedOf, IsBad};
ghost use Rattle.virtiofs_map.specs.AuditParts.{IsLed, IsLiveRest, IsOneByte, IsRepeated, IsWhole};
ghost use Rattle.virtiofs_map.specs.AuditParts.{LedTo, side_of};
ghost use Rattle.virtiofs_map.specs.Rule.{MappingRule};
ghost use Rattle.virtiofs_map.specs.Steps.{CountsBetween};
ghost use Rattle.virtiofs_map.specs.declared.audit.asking.NameFault.TheVariants.{Lost};

use crate::audit::answer::Audit;
use crate::audit::gathered::{Part, gathered};
use crate::audit::least::Tried;
use crate::audit::passing::{is_cut, is_put_at};
use crate::audit::question::Question;
use crate::steps::Steps;
use crate::xattrmap::{Side, XattrName, XattrNameBuf};
use std::alloc::{AllocError, Allocator};

/// The least bad name. The bytes with which all names begin are a name that may be the least, so
/// they are tried too; the other names that are tried are counted.
pub(crate) fn least_bad_name<A: Allocator + Copy>(
    alloc: A,
    question: &Question<'_>,
    steps: &mut Steps,
) -> Result<Audit<A>, AllocError>
    ensures answer { (rules others : List MappingRule) → IsAskedOf question.now rules others
        → IfOk result (AnswersLeast (IsBad question.now rules others)) }
    ensures counted { (rules others : List MappingRule) → IsAskedOf question.now rules others
        → question.now.fault ≡ Lost
        → OnOk result (CountsBetween 1 (most_tried rules) steps.old steps.new) }
    ensures uncounted { OnErr result (steps.new ≡ steps.old) }
{
    let mut tried = Tried::new(alloc);
    tried.look_at(alloc, question, question.beginning)?;
    let patterns = gathered(alloc, question.map, Part::Pattern(question.side()))?;
    let fronts = gathered(alloc, question.map, Part::Added(question.side()))?;
    let ends = question.ends(alloc)?;
    try_wholes(
        alloc,
        question,
        XattrName { bytes: &[] },
        &patterns,
        &mut tried,
    )?;
    try_led(alloc, question, &fronts, &ends, &mut tried)?;
    try_one_byte_names(alloc, question, &mut tried)?;
    steps.add(tried.steps());
    Ok(tried.into_answer())
}

/// Tries what each of the ends comes to by each of the fronts.
fn try_led<A: Allocator + Copy>(
    alloc: A,
    question: &Question<'_>,
    fronts: &[XattrNameBuf<A>],
    ends: &[XattrNameBuf<A>],
    tried: &mut Tried<A>,
) -> Result<(), AllocError>
    requires { AreOrdered ends.now }
    ensures { OnOk result (AllTried question.now
        (λ rules. LedTo fronts.now (IsLed (side_of question.now.fault) rules ends.now))
        (length fronts.now * length ends.now) tried.old tried.new) }
{
    for place in 0..fronts.len() {
        if is_repeated(fronts, place) {
            continue;
        }
        try_led_by(alloc, question, fronts[place].as_name(), ends, tried)?;
    }
    Ok(())
}

/// Tries what each of the ends comes to by a front: what is left of it after the front, or, of names
/// of the host, the two together where the rules of the server take that front off a name.
fn try_led_by<A: Allocator + Copy>(
    alloc: A,
    question: &Question<'_>,
    front: XattrName<'_>,
    ends: &[XattrNameBuf<A>],
    tried: &mut Tried<A>,
) -> Result<(), AllocError>
    requires { AreOrdered ends.now }
    ensures { OnOk result (AllTried question.now
        (λ rules. IsLed (side_of question.now.fault) rules ends.now front.entry.bytes.now)
        (length ends.now) tried.old tried.new) }
{
    match question.side() {
        Side::Client => try_rests(alloc, question, front.bytes, ends, tried),
        Side::Server => {
            if !is_cut(question.map, front.bytes) {
                return Ok(());
            }
            if !question.may_begin_with(front.bytes) {
                return Ok(());
            }
            try_wholes(alloc, question, front, ends, tried)
        }
    }
}

/// Tries what is left of each pattern that begins with an added prefix, after it, where it passes as
/// the pattern: where another prefix is put before it, it is what is left after that one.
fn try_rests<A: Allocator + Copy>(
    alloc: A,
    question: &Question<'_>,
    added: &[u8],
    patterns: &[XattrNameBuf<A>],
    tried: &mut Tried<A>,
) -> Result<(), AllocError>
    requires { AreOrdered patterns.now }
    ensures { OnOk result (AllTried question.now
        (λ rules. IsLiveRest rules patterns.now added.now) (length patterns.now) tried.old tried.new) }
{
    let start = count_before(patterns, added);
    for place in start..patterns.len() {
        let pattern = patterns[place].as_name();
        if !pattern.bytes.starts_with(added) {
            return Ok(());
        }
        if !is_put_at(question.map, pattern.bytes, added.len()) {
            continue;
        }
        let bytes = &pattern.bytes[added.len()..];
        tried.try_name(alloc, question, XattrName { bytes })?;
    }
    Ok(())
}

/// Tries each of the ends after a front, as long as these names come before the least bad one.
fn try_wholes<A: Allocator + Copy>(
    alloc: A,
    question: &Question<'_>,
    front: XattrName<'_>,
    ends: &[XattrNameBuf<A>],
    tried: &mut Tried<A>,
) -> Result<(), AllocError>
    requires { AreOrdered ends.now }
    ensures { OnOk result (AllTried question.now
        (λ _. IsWhole ends.now front.entry.bytes.now) (length ends.now) tried.old tried.new) }
{
    for place in 0..ends.len() {
        let whole = ends[place].as_name().prefixed_with(alloc, front)?;
        let name = whole.as_name();
        if !tried.is_first(name) {
            return Ok(());
        }
        tried.try_name(alloc, question, name)?;
    }
    Ok(())
}

/// Tries the names of one byte.
fn try_one_byte_names<A: Allocator + Copy>(
    alloc: A,
    question: &Question<'_>,
    tried: &mut Tried<A>,
) -> Result<(), AllocError>
    ensures tried { OnOk result (AllTried question.now (λ _. IsOneByte) 255 tried.old tried.new) }
    ensures counted { OnOk result (0 < tried.new.count) }
{
    for byte in 1..=u8::MAX {
        let name = XattrName { bytes: &[byte] };
        tried.try_name(alloc, question, name)?;
    }
    Ok(())
}

/// Whether the name at a place stands just before it too.
fn is_repeated<A: Allocator>(names: &[XattrNameBuf<A>], place: usize) -> bool
    requires { place < length names.now }
    ensures { IsTrue result → IsRepeated names.now place }
{
    if place == 0 {
        return false;
    }
    names[place - 1] == names[place]
}

/// How many names come before these bytes.
fn count_before<A: Allocator>(names: &[XattrNameBuf<A>], bytes: &[u8]) -> usize
    requires { AreOrdered names.now }
    ensures { CountsBefore names.now bytes.now result }
{
    names.partition_point(|name| name.as_name().bytes.cmp(&bytes).is_lt())
}
