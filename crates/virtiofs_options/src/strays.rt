//! What is wrong with parts that are each right: a word that is no option, and options that do not go
//! together.
ghost use Rattle.std.specs.Prelude.{◌≡◌, None, IsOk, IfErr};
ghost use Rattle.virtiofs_options.specs.Parts.{WrongOnly};
ghost use Rattle.virtiofs_options.specs.Unknown.{AreRight, IsPartsFault, are_at_odds, clash, clashes, next_place, stray_at, stray_in};

use crate::command::Part;
use crate::fault::{Fault, ReadError};
use crate::line::is_daemon;
use crate::options::{Options, Sets};
use crate::unknown::check_parts;
use std::alloc::Global;

/// Where a part of a command line stands.
#[derive(Clone, Copy)]
pub(crate) enum Place {
    /// Before the daemon's word and all options.
    Front,
    /// Right after the daemon's word.
    Named,
    /// After an option that is known, and its value.
    Line,
    /// After an option that is not known.
    AfterUnknown,
}

/// Where the next part stands.
fn next_place(place: Place, part: Part<'_>) -> Place
    ensures { result ≡ next_place place part.entry }
{
    match (place, part) {
        (Place::Front | Place::Named, Part::Plain(word)) if is_daemon(word.as_bytes()) => {
            Place::Named
        }
        (Place::Front, Part::Plain(_)) => Place::Front,
        (_, Part::Stray(_)) => Place::AfterUnknown,
        _ => Place::Line,
    }
}

/// A word that is no option, where none is right.
fn stray_at<'a>(place: Place, part: Part<'a>) -> Option<&'a str>
    ensures { result ≡ stray_at place part.entry }
{
    match (place, part) {
        (Place::Line, Part::Plain(word)) => Some(word),
        (Place::Named, Part::Plain(word)) if !is_daemon(word.as_bytes()) => Some(word),
        _ => None,
    }
}

/// The first such word.
fn first_stray<'a>(parts: &[Part<'a>]) -> Option<&'a str>
    ensures { result ≡ stray_in Place.Front parts.now }
{
    let mut place = Place::Front;
    let mut left = parts;
    while let [part, rest @ ..] = left {
        if let Some(word) = stray_at(place, *part) {
            return Some(word);
        }
        place = next_place(place, *part);
        left = rest;
    }
    None
}

/// Whether two options of the socket do not go together.
fn clash(one: Sets, other: Sets) -> bool
    ensures { result ≡ clash one other }
{
    match (one, other) {
        (Sets::Fd, Sets::Socket | Sets::Group) | (Sets::Group, Sets::Prints) => true,
        _ => false,
    }
}

/// Whether a part does not go together with one of these.
fn clashes(part: Part<'_>, parts: &[Part<'_>]) -> bool
    ensures { result ≡ clashes part.entry parts.now }
{
    parts.iter().any(|other| clash(part.sets(), other.sets()))
}

/// Whether there are options of the socket that do not go together.
fn are_at_odds(parts: &[Part<'_>]) -> bool
    ensures { result ≡ are_at_odds parts.now }
{
    parts.iter().any(|part| clashes(*part, parts))
}

/// Refuses parts of a command line of which one is wrong, or that are wrong together.
pub(crate) fn check_line<'a>(
    alloc: Global,
    options: Options,
    parts: &[Part<'a>],
) -> Result<(), ReadError<'a>>
    ensures right { IsOk result → AreRight options parts.now }
    ensures refused { IfErr result (WrongOnly (IsPartsFault options parts.now)) }
{
    check_parts(alloc, options, parts)?;
    if let Some(word) = first_stray(parts) {
        return Err(ReadError::Wrong(Fault::StrayWord(word)));
    }
    if are_at_odds(parts) {
        return Err(ReadError::Wrong(Fault::AtOdds));
    }
    Ok(())
}
