//! Explanations: what decides about one id or one name, what becomes of it, and whether the way back
//! leads to where it began.
//!
//! [`asking`] reads the questions, and [`explain_all`] finds an explanation for each guest and each
//! question.
ghost use Rattle.std.specs.Prelude.{◌≡◌, IfOk, length};
ghost use Rattle.std.specs.List.{AllZip};
ghost use Rattle.virtiofs_findings.specs.Explain.{ExplainsIds, ExplainsNames, Explains, ExplainsGuests, ExplainsAll};

use crate::explain::asking::Question;
use crate::explain::ids::{IdWays, explain_id};
use crate::explain::names::{GuestName, HostName, explain_guest_name, explain_host_name};
use crate::guest::Guest;
use crate::ids::kind::IdKind;
use crate::refusal::Refusal;
use crate::setup::{IdSetUp, NamesSetUp, SetUp, set_up_all};
use std::alloc::{AllocError, Global};
use virtiofs_map::soft_idmap::Direction;
use virtiofs_map::xattrmap::XattrName;

pub mod asking;
pub mod ids;
pub mod names;

/// What becomes of an id or a name that is asked about.
#[derive(Drop)]
pub enum Explanation<'a> {
    /// It is not told: a text is refused, or it is not known as which id the daemon acts.
    Refused,
    /// No rules decide. The name stays as it is where extended attributes are on, but for the names of
    /// access control lists where these are on.
    NoRules,
    /// Of an id.
    Id(IdWays),
    /// Of a name that the guest uses.
    GuestName(GuestName<'a>),
    /// Of a name of the host.
    HostName(HostName),
}

/// What the options of all guests set up, what is refused, and the explanations.
#[derive(Drop)]
pub struct Explained<'a> {
    /// What the options of each guest set up.
    pub sets: Vec<SetUp<Global>>,
    /// Guest by guest, the first fault of each option that is refused.
    pub refusals: Vec<Refusal<Global>>,
    /// For each guest, in order, the explanation for each question, in order.
    pub guests: Vec<Vec<Explanation<'a>>>,
}

/// What becomes of an id.
fn explain_ids<'a>(set: &Option<IdSetUp<Global>>, direction: Direction, id: u32) -> Explanation<'a>
    ensures { ExplainsIds set.now direction id result }
{
    match set {
        Some(set) => Explanation::Id(explain_id(set, direction, id)),
        None => Explanation::Refused,
    }
}

/// What becomes of a name, by the rules if there are any.
fn explain_names<'a>(
    alloc: Global,
    rules: Option<&str>,
    names: &Option<NamesSetUp<Global>>,
    direction: Direction,
    name: XattrName<'a>,
) -> Result<Explanation<'a>, AllocError>
    ensures { IfOk result (ExplainsNames rules.entry names.now direction name.entry.bytes.now) }
{
    if rules.is_none() {
        return Ok(Explanation::NoRules);
    }
    let Some(names) = names else {
        return Ok(Explanation::Refused);
    };
    match direction {
        Direction::GuestToHost => {
            Ok(Explanation::GuestName(explain_guest_name(alloc, names, name)?))
        }
        Direction::HostToGuest => Ok(Explanation::HostName(explain_host_name(alloc, names, name)?)),
    }
}

/// What becomes of what is asked about.
fn explain<'a>(
    alloc: Global,
    guest: &Guest<'_, Global>,
    set: &SetUp<Global>,
    question: Question<'a>,
) -> Result<Explanation<'a>, AllocError>
    ensures { IfOk result (Explains guest.now set.now question.entry) }
{
    match question {
        Question::Id(IdKind::Users, direction, id) => Ok(explain_ids(&set.users, direction, id)),
        Question::Id(IdKind::Groups, direction, id) => Ok(explain_ids(&set.groups, direction, id)),
        Question::Name(direction, name) => {
            explain_names(alloc, guest.options.xattrmap, &set.names, direction, name)
        }
    }
}

/// The explanation for each question about a guest.
fn explain_each<'a>(
    alloc: Global,
    questions: &[Question<'a>],
    guest: &Guest<'_, Global>,
    set: &SetUp<Global>,
) -> Result<Vec<Explanation<'a>>, AllocError>
    ensures { IfOk result (λ all. AllZip (Explains guest.now set.now) questions.now all.items) }
{
    let mut all = Vec::new(alloc);
    for place in 0..questions.len() {
        all.push(explain(alloc, guest, set, questions[place])?)?;
    }
    Ok(all)
}

/// The explanations for each guest.
fn explain_guests<'a>(
    alloc: Global,
    questions: &[Question<'a>],
    guests: &[Guest<'_, Global>],
    sets: &[SetUp<Global>],
) -> Result<Vec<Vec<Explanation<'a>>>, AllocError>
    requires { length sets.now ≡ length guests.now }
    ensures { IfOk result (λ all.
        ExplainsGuests questions.now guests.now sets.now all.items) }
{
    let mut all = Vec::new(alloc);
    for place in 0..guests.len() {
        all.push(explain_each(alloc, questions, &guests[place], &sets[place])?)?;
    }
    Ok(all)
}

/// Sets up all guests, and finds the explanations for all questions about each.
pub fn explain_all<'a>(
    alloc: Global,
    questions: &[Question<'a>],
    guests: &[Guest<'_, Global>],
) -> Result<Explained<'a>, AllocError>
    ensures { IfOk result (ExplainsAll questions.now guests.now) }
{
    let mut refusals = Vec::new(alloc);
    let sets = set_up_all(alloc, &mut refusals, guests)?;
    let all = explain_guests(alloc, questions, guests, sets.as_slice())?;
    Ok(Explained {
        sets,
        refusals,
        guests: all,
    })
}
