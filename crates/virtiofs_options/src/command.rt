//! Words, part by part, as the options that are known say which have a value.
ghost use Rattle.std.specs.Prelude.{◌≡◌, ◌≤◌, ℕ, ◌∷◌, List, length, IsTrue, IsFalse, IfOk, IfErr, MatchOption, option_map};
ghost use Rattle.virtiofs_options.specs.GuestOptions.{is_flag, value_in};
ghost use Rattle.virtiofs_options.specs.Parts.{begins_option, known_of, key_of, is_option, is_last, read_after, sets_by, AreParts, HasFault, IsOption, JoinsLong, Names, StandsFirst, IsWrong, WrongOnly};

use crate::fault::{Fault, ReadError};
use crate::options::{Known, Options, Sets, Takes};
use std::alloc::Allocator;

/// A word, once joined short options are words of their own.
#[derive(Clone, Copy)]
pub(crate) struct Word<'a> {
    /// The text.
    pub(crate) text: &'a str,
    /// Whether it was joined to the letter of the option before it, as `-x` in `-o-x`: then it is the
    /// value of that option, whatever it begins with.
    pub(crate) is_joined: bool,
}

impl Word<'_> {
    /// Whether the word looks like an option. Such a word is no value of the option before it.
    pub(crate) fn is_option(self) -> bool
        ensures { result ≡ begins_option self.entry }
    {
        !self.is_joined && is_option(self.text)
    }
}

/// What one or two words of a command line are.
#[derive(Clone, Copy)]
pub(crate) enum Part<'a> {
    /// A word that is no option.
    Plain(&'a str),
    /// An option that has no value.
    Flag(Known),
    /// An option and its value.
    Valued(Known, &'a str),
    /// A word that looks like an option that is not known.
    Stray(&'a str),
}

impl<'a> Part<'a> {
    /// Whether the part is an option that has no value.
    pub(crate) fn is_flag(self, option: &str) -> bool
        ensures { result ≡ is_flag option.now self.entry }
    {
        match self {
            Part::Flag(row) => row.name == option,
            _ => false,
        }
    }

    /// The value of an option, where the part is that option.
    pub(crate) fn value_in(self, option: &str) -> Option<&'a str>
        ensures { result ≡ value_in option.now self.entry }
    {
        match self {
            Part::Valued(row, value) if row.name == option => Some(value),
            _ => None,
        }
    }

    /// What the part sets.
    pub(crate) fn sets(self) -> Sets
        ensures { result ≡ sets_by self.entry }
    {
        match self {
            Part::Flag(row) | Part::Valued(row, _) => row.sets,
            _ => Sets::Other,
        }
    }
}

/// Whether nothing is read after an option.
pub(crate) fn is_last(sets: Sets) -> bool
    ensures { result ≡ is_last sets }
{
    matches!(sets, Sets::Tells(_))
}

/// The text before the first `=`, or all of it.
pub(crate) fn key_of(text: &str) -> &str
    ensures { result.now ≡ key_of text.now }
{
    match text.split_once('=') {
        Some((key, _)) => key,
        None => text,
    }
}

/// The option of that name, where it is known.
pub(crate) fn known_of(options: Options, name: &[u8]) -> Option<Known>
    ensures { result ≡ known_of options name.now }
{
    options
        .known
        .iter()
        .find(|it| it.name.as_bytes() == name)
        .copied()
}

/// Whether a word looks like an option: it begins with `-`, and has more than that.
pub(crate) fn is_option(word: &str) -> bool
    ensures { result ≡ is_option word.now }
{
    word.starts_with('-') && word != "-"
}

/// The option and the value in one word: `--NAME=VALUE`.
fn long_value(word: &str) -> Option<(&str, &str)>
    ensures { MatchOption result
        ((name value : List ℕ) → ¬ JoinsLong word.now name value)
        (λ p. JoinsLong word.now p.0.now p.1.now) }
{
    if !word.starts_with("--") {
        return None;
    }
    word.split_once('=')
}

/// The option that a word names, and the value that it has in the same word, if it has one there.
fn named(word: &str) -> (&str, Option<&str>)
    ensures { Names word.now result.0.now (option_map (λ value. value.now) result.1) }
{
    match long_value(word) {
        Some((name, value)) => (name, Some(value)),
        None => (word, None),
    }
}

/// An option that is not known: a part where such options may stand, and else wrong.
fn stray<'a>(options: Options, word: &'a str, name: &'a str) -> Result<(Part<'a>, usize), Fault<'a>>
    ensures read { IfOk result (λ p. (p ≡ (Part.Stray word.entry, 1)) × IsTrue options.plain) }
    ensures refused { IfErr result (λ fault. (fault ≡ Fault.Unknown name.entry)
        × IsFalse options.plain) }
{
    if options.plain {
        return Ok((Part::Stray(word), 1));
    }
    Err(Fault::Unknown(name))
}

/// The part that an option begins, which has no value in its own word, and how many words that has.
/// `after` are the words after the first.
fn apart<'a>(
    options: Options,
    word: Word<'a>,
    after: &[Word<'a>],
) -> Result<(Part<'a>, usize), Fault<'a>>
    requires option { IsOption word }
    requires named { Names word.text.now word.text.now None }
    ensures read { IfOk result (λ p. StandsFirst options word.entry after.now p.0 p.1) }
    ensures refused { IfErr result (IsWrong options (word.entry ∷ after.now)) }
{
    let Some(row) = known_of(options, word.text.as_bytes()) else {
        return stray(options, word.text, word.text);
    };
    match row.takes {
        Takes::Nothing => Ok((Part::Flag(row), 1)),
        Takes::AfterEquals => Err(Fault::Missing(word.text)),
        Takes::Value => match after.first() {
            Some(next) if !next.is_option() => Ok((Part::Valued(row, next.text), 2)),
            _ => Err(Fault::Missing(word.text)),
        },
    }
}

/// The first part of words, and how many words it has.
fn first_part<'a>(
    options: Options,
    word: Word<'a>,
    after: &[Word<'a>],
) -> Result<(Part<'a>, usize), Fault<'a>>
    ensures read { IfOk result (λ p. StandsFirst options word.entry after.now p.0 p.1) }
    ensures refused { IfErr result (IsWrong options (word.entry ∷ after.now)) }
{
    if !word.is_option() {
        if options.plain {
            return Ok((Part::Plain(word.text), 1));
        }
        return Err(Fault::Unknown(word.text));
    }
    let (name, joined) = named(word.text);
    let Some(value) = joined else {
        return apart(options, word, after);
    };
    let Some(row) = known_of(options, name.as_bytes()) else {
        return stray(options, word.text, name);
    };
    match row.takes {
        Takes::Nothing => Err(Fault::Unwanted(name)),
        Takes::Value | Takes::AfterEquals => Ok((Part::Valued(row, value), 1)),
    }
}

/// What is read of the words after a part: none where it is an option that tells of the program or the
/// daemon.
fn read_after<'w, 'a>(part: Part<'a>, rest: &'w [Word<'a>]) -> &'w [Word<'a>]
    ensures after { result.now ≡ read_after part.entry rest.now }
    ensures shorter { length result.now ≤ length rest.now }
{
    if is_last(part.sets()) { &[] } else { rest }
}

/// The parts of words, in their order, up to the first option that tells of the program or the daemon.
///
/// # Errors
///
/// The first wrong word and what is wrong with it; or a request for memory was refused.
#[tactic(auto, using(crate::proofs::PartLemmas::parts_then_next))]
pub(crate) fn read_parts<'a, A: Allocator>(
    alloc: A,
    options: Options,
    words: &[Word<'a>],
) -> Result<Vec<Part<'a>, A>, ReadError<'a>>
    ensures read { IfOk result (λ parts. AreParts options words.now parts.items) }
    ensures refused { IfErr result (WrongOnly (HasFault options words.now)) }
{
    let mut parts = Vec::new(alloc);
    let mut rest = words;
    while !rest.is_empty() {
        let (part, count) = first_part(options, rest[0], &rest[1..])?;
        parts.push(part)?;
        rest = read_after(part, &rest[count..]);
    }
    Ok(parts)
}
