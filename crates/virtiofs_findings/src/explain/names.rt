//! What the rules make of one name, and which written rule decides.
ghost use Rattle.std.specs.Prelude.{◌≡◌, ◌↔◌, IfOk, OnOk, IsTrue};
ghost use Rattle.virtiofs_map.specs.Listing.{listing};
ghost use Rattle.virtiofs_map.specs.LookupAnswers.{passed_bytes};
ghost use Rattle.virtiofs_map.specs.Names.{client_answer};
ghost use Rattle.virtiofs_findings.specs.ExplainNames.{rule_of, StandsAs, ExplainsHostName, answer_of, ExplainsBack, IsListedAs, ExplainsGuestName};

use crate::setup::NamesSetUp;
use std::alloc::{AllocError, Global};
use virtiofs_map::Steps;
use virtiofs_map::xattrmap::{
    AppliedRule, Error, ErrorKind, PassedName, Side, XattrMap, XattrName,
};

/// How a name of the host stands in lists.
#[derive(Drop)]
pub enum Listed {
    /// Under this name.
    Under(Vec<u8>),
    /// Not at all.
    Hidden,
    /// No rule decides it, so a list that has it fails.
    Undecided,
}

/// A name of the host.
#[derive(Drop)]
pub struct HostName {
    /// The place, counted from 0, of the written rule that decides it; `None` if none does.
    pub rule: Option<usize>,
    /// How it stands in lists.
    pub listed: Listed,
}

/// A name that the guest uses.
#[derive(Drop)]
pub struct GuestName<'a> {
    /// The place, counted from 0, of the written rule that decides it; `None` if none does.
    pub rule: Option<usize>,
    /// What the rule makes of it.
    pub becomes: Option<AppliedRule<'a, Global>>,
    /// The name of the host that it becomes; `None` if it does not pass.
    pub back: Option<HostName>,
    /// Whether that one is listed as the name that the guest uses.
    pub is_round: bool,
}

/// The place, counted from 0, of the written rule that decides a name of that side. A `map` rule is
/// the last one, and stands for several rules of the map.
fn deciding(names: &NamesSetUp<Global>, side: Side, name: XattrName<'_>) -> Option<usize>
    ensures { result ≡ rule_of side names.now.map names.now.written name.entry.bytes.now }
{
    let part = names.map.first_rule(side, name, &mut Steps::new())?;
    Some(part.min(names.written.saturating_sub(1)))
}

/// How a name of the host stands in lists.
fn stands(alloc: Global, map: &XattrMap<Global>, name: XattrName<'_>) -> Result<Listed, AllocError>
    ensures { IfOk result (StandsAs (listing map.now name.entry.bytes.now)) }
{
    match map.listed_names(name.bytes).next() {
        Some(Ok(listed)) => Ok(Listed::Under(Vec::from_slice(alloc, listed)?)),
        Some(Err(_)) => Ok(Listed::Undecided),
        None => Ok(Listed::Hidden),
    }
}

/// What becomes of a name of the host.
pub(super) fn explain_host_name(
    alloc: Global,
    names: &NamesSetUp<Global>,
    name: XattrName<'_>,
) -> Result<HostName, AllocError>
    ensures { IfOk result
        (ExplainsHostName names.now.map names.now.written name.entry.bytes.now) }
{
    let listed = stands(alloc, &names.map, name)?;
    let rule = deciding(names, Side::Server, name);
    Ok(HostName { rule, listed })
}

/// Answers `Ok` to the error that no rule decides a name, and any other as out of memory.
fn undecided(error: &Error<Global>) -> Result<(), AllocError>
    ensures { OnOk result (error.now.cause ≡ ErrorKind.UnterminatedMapping) }
{
    match error.cause {
        ErrorKind::UnterminatedMapping => Ok(()),
        _ => Err(AllocError),
    }
}

/// What the rules make of a name that the guest uses; `None` if none decides it.
fn applied<'a>(
    alloc: Global,
    map: &XattrMap<Global>,
    name: XattrName<'a>,
) -> Result<Option<AppliedRule<'a, Global>>, AllocError>
    ensures { IfOk result (λ applied. answer_of applied
        ≡ client_answer map.now name.entry.bytes.now) }
{
    match map.map_client_xattr(alloc, name) {
        Ok(applied) => Ok(Some(applied)),
        Err(error) => {
            undecided(&error)?;
            Ok(None)
        }
    }
}

/// A name as it goes to the host.
fn passed_name<'p>(passed: &'p PassedName<'_, Global>) -> XattrName<'p>
    ensures { result.bytes.now ≡ passed_bytes passed.now }
{
    match passed {
        PassedName::Borrowed(name) => *name,
        PassedName::Owned(name) => name.as_name(),
    }
}

/// What becomes of the name of the host that a name of the guest became, if it became one.
fn back_of(
    alloc: Global,
    names: &NamesSetUp<Global>,
    becomes: &Option<AppliedRule<'_, Global>>,
) -> Result<Option<HostName>, AllocError>
    ensures { IfOk result
        (ExplainsBack names.now.map names.now.written (answer_of becomes.now)) }
{
    match becomes {
        Some(AppliedRule::Pass(passed)) => {
            Ok(Some(explain_host_name(alloc, names, passed_name(passed))?))
        }
        _ => Ok(None),
    }
}

/// Whether a name of the host, if there is one, is listed as that name.
fn is_listed_as(host: &Option<HostName>, name: &[u8]) -> bool
    ensures { IsTrue result ↔ IsListedAs host.now name.now }
{
    match host {
        Some(
            HostName {
                listed: Listed::Under(listed),
                ..
            },
        ) => listed.as_slice() == name,
        _ => false,
    }
}

/// What becomes of a name that the guest uses, and of the name of the host that it becomes.
pub(super) fn explain_guest_name<'a>(
    alloc: Global,
    names: &NamesSetUp<Global>,
    name: XattrName<'a>,
) -> Result<GuestName<'a>, AllocError>
    ensures { IfOk result
        (ExplainsGuestName names.now.map names.now.written name.entry.bytes.now) }
{
    let becomes = applied(alloc, &names.map, name)?;
    let back = back_of(alloc, names, &becomes)?;
    let is_round = is_listed_as(&back, name.bytes);
    Ok(GuestName {
        rule: deciding(names, Side::Client, name),
        becomes,
        back,
        is_round,
    })
}
