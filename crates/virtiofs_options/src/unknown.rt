//! What the parts of a command line have that the daemon does not know, or refuses.
//!
//! A near miss of an option for ids or names is wrong, since an audit without that option would say
//! too little, and so is what each daemon refuses. What else is not known is told.
ghost use Rattle.std.specs.Char.{is_ascii_digit};
ghost use Rattle.std.specs.List.{list_all, list_any};
ghost use Rattle.std.specs.Prelude.{◌≡◌, ◌++◌, ◌∷◌, [], None, bytes_eq, map, find, IsOk, IfOk, IfErr, OnOk, string_bytes};
ghost use Rattle.std.specs.Str.{str_eq_ignore_ascii_case};
ghost use Rattle.virtiofs_options.specs.GuestOptions.{split_at_commas};
ghost use Rattle.virtiofs_options.specs.Parts.{WrongOnly};
ghost use Rattle.virtiofs_options.specs.Unknown.{allows, are_digits, front_of, is_near, is_near_one, is_faulty, FaultsIn, first_bad, HasTextFault, HasPartFault, misses, unknown_words, told, unknown_of};

use crate::cluster::stripped;
use crate::command::{Part, key_of};
use crate::fault::{Fault, ReadError, shown};
use crate::line::concerns;
use crate::older::{after, older_of};
use crate::options::{Known, Options, Sets, Values};
use crate::whole::{follows, is_line, is_name};
use std::alloc::{AllocError, Global};
use strsim::levenshtein;

/// The most edits between a near miss and what it misses.
const MOST_EDITS: usize = 2;

/// A word that the daemon does not know.
#[derive(Clone, Copy)]
pub struct UnknownWord<'a> {
    /// The number of its guest, counted from 1.
    pub guest: usize,
    /// Whether it is a part of `-o`.
    pub is_older: bool,
    /// The option without its value, or the part of `-o`.
    pub word: &'a str,
}

/// The line on a word that the daemon does not know, without a line feed.
///
/// # Errors
///
/// `AllocError`: a request for memory was refused.
pub fn unknown_line(alloc: Global, unknown: UnknownWord<'_>) -> Result<String, AllocError> {
    let (guest, word) = (unknown.guest, shown(alloc, unknown.word)?);
    let what = if unknown.is_older {
        "part of '-o'"
    } else {
        "option"
    };
    format!(in alloc;
        "guest {guest}: unknown {what} {word}: virtiofsd 1.13.2 refuses it and does not start"
    )
}

/// The most characters of a word that count, and that a sentence quotes.
pub(crate) const MOST_SHOWN: usize = 60;

/// The first characters of a word.
pub(crate) fn front_of(alloc: Global, word: &str) -> Result<String, AllocError>
    ensures { IfOk result (λ front. string_bytes front ≡ front_of word.now) }
{
    word.chars().take(MOST_SHOWN).collect(alloc)
}

/// Whether a text is a near miss of a name.
fn is_near(alloc: Global, text: &str, name: &str) -> Result<bool, AllocError>
    ensures { IfOk result (λ near. near ≡ is_near text.now name.now) }
{
    let front = front_of(alloc, text)?;
    let edits = levenshtein(alloc, front.as_str(), name)?;
    Ok(edits <= MOST_EDITS)
}

/// Whether a text is a near miss of an option for ids or names.
fn misses(alloc: Global, text: &str, row: Known) -> Result<bool, AllocError>
    ensures { IfOk result (λ near. near ≡ misses text.now row) }
{
    if !concerns(row.sets) {
        return Ok(false);
    }
    is_near(alloc, text, key_of(row.name))
}

/// Whether a text is a near miss of one of these that are for ids or names.
fn is_near_one(alloc: Global, text: &str, known: &[Known]) -> Result<bool, AllocError>
    ensures { IfOk result (λ near. near ≡ is_near_one text.now known.now) }
{
    for row in known {
        if misses(alloc, text, *row)? {
            return Ok(true);
        }
    }
    Ok(false)
}

/// Whether a text is one of these.
fn is_of(texts: &[&str], value: &str) -> bool
    ensures { result ≡ list_any (λ it. bytes_eq it.now value.now) texts.now }
{
    texts.iter().any(|it| *it == value)
}

/// Whether a text is one of these, but for small letters and large.
fn is_of_any_case(texts: &[&str], value: &str) -> bool
    ensures { result ≡ list_any (λ it. str_eq_ignore_ascii_case it.now value.now) texts.now }
{
    texts.iter().any(|it| it.eq_ignore_ascii_case(value))
}

/// Whether all bytes are digits.
fn all_digits(bytes: &[u8]) -> bool
    ensures { result ≡ list_all is_ascii_digit bytes.now }
{
    bytes.iter().all(|byte| byte.is_ascii_digit())
}

/// Whether a text is digits, after a `+` or none.
fn are_digits(value: &str) -> bool
    ensures { result ≡ are_digits value.now }
{
    let digits = stripped("+", value).unwrap_or(value).as_bytes();
    !digits.is_empty() && all_digits(digits)
}

/// Whether the daemon takes a value.
fn allows(values: Values, value: &str) -> bool
    ensures { result ≡ allows values value.now }
{
    match values {
        Values::Any => true,
        Values::NoEquals => !value.as_bytes().contains(&b'='),
        Values::Of(texts) => is_of(texts, value),
        Values::AnyCase(texts) => is_of_any_case(texts, value),
        Values::Digits => are_digits(value),
        Values::Tag => !value.is_empty() && value.len() <= 36,
    }
}

/// What is wrong with a part of `-o`, if something is.
fn text_fault<'a>(
    alloc: Global,
    options: Options,
    text: &'a str,
) -> Result<Option<Fault<'a>>, AllocError>
    ensures { IfOk result (HasTextFault options (first_bad options (text.now ∷ []))) }
{
    let Some(row) = older_of(options, text) else {
        let near = is_near_one(alloc, key_of(text), options.older)?;
        return Ok(near.then_some(Fault::OlderUnknown(text)));
    };
    let refused = !allows(row.values, after(row.name, text));
    Ok(refused.then_some(Fault::OlderRefused(text)))
}

/// What is wrong with the first part of a `-o` that is wrong.
fn older_fault<'a>(
    alloc: Global,
    options: Options,
    value: &'a str,
) -> Result<Option<Fault<'a>>, AllocError>
    ensures { IfOk result
        (HasTextFault options (first_bad options (split_at_commas value.now))) }
{
    let mut first = None;
    for text in value.split(',') {
        if first.is_none() {
            first = text_fault(alloc, options, text)?;
        }
    }
    Ok(first)
}

/// What is wrong with an option that is not known.
fn stray_fault<'a>(
    alloc: Global,
    options: Options,
    word: &'a str,
) -> Result<Option<Fault<'a>>, AllocError>
    ensures { IfOk result (FaultsIn options (Part.Stray word.entry)) }
{
    if is_line(options, word) {
        return Ok(Some(Fault::Whole(word)));
    }
    let name = key_of(word);
    if is_name(options.own, name.as_bytes()) {
        return Ok(Some(Fault::AfterDashes(name)));
    }
    if is_near_one(alloc, name, options.known)? {
        return Ok(Some(Fault::Miss(name)));
    }
    Ok(None)
}

/// What is wrong with an option that has a value.
#[tactic(auto, using(crate::proofs::UnknownLemmas::older_faulty))]
fn valued_fault<'a>(
    alloc: Global,
    options: Options,
    row: Known,
    value: &'a str,
) -> Result<Option<Fault<'a>>, AllocError>
    ensures { IfOk result (FaultsIn options (Part.Valued row value.entry)) }
{
    if follows(options, value) {
        return Ok(Some(Fault::Whole(value)));
    }
    if !allows(row.values, value) {
        return Ok(Some(Fault::Refused(row.name, value)));
    }
    if !matches!(row.sets, Sets::Older) {
        return Ok(None);
    }
    older_fault(alloc, options, value)
}

/// What is wrong with a part of a command line.
fn part_fault<'a>(
    alloc: Global,
    options: Options,
    part: Part<'a>,
) -> Result<Option<Fault<'a>>, AllocError>
    ensures { IfOk result (FaultsIn options part.entry) }
{
    match part {
        Part::Flag(_) => Ok(None),
        Part::Plain(word) if is_line(options, word) => Ok(Some(Fault::Whole(word))),
        Part::Plain(_) => Ok(None),
        Part::Stray(word) => stray_fault(alloc, options, word),
        Part::Valued(row, value) => valued_fault(alloc, options, row, value),
    }
}

/// Refuses the first part of a command line that is wrong.
pub(crate) fn check_parts<'a>(
    alloc: Global,
    options: Options,
    parts: &[Part<'a>],
) -> Result<(), ReadError<'a>>
    ensures right { IsOk result → find (is_faulty options) parts.now ≡ None }
    ensures refused { IfErr result (WrongOnly (HasPartFault options parts.now)) }
{
    for part in parts {
        match part_fault(alloc, options, *part)? {
            Some(fault) => return Err(ReadError::Wrong(fault)),
            None => {}
        }
    }
    Ok(())
}

/// Adds a part of `-o`, if it is not known.
fn push_older_word<'a>(
    unknown: &mut Vec<UnknownWord<'a>, Global>,
    options: Options,
    guest: usize,
    word: &'a str,
) -> Result<(), AllocError>
    ensures { OnOk result (map told unknown.new.items
        ≡ map told unknown.old.items ++ unknown_words options guest (word.now ∷ [])) }
{
    if older_of(options, word).is_some() {
        return Ok(());
    }
    unknown.push(UnknownWord {
        guest,
        is_older: true,
        word,
    })?;
    Ok(())
}

/// Adds the parts of a `-o` that are not known.
fn push_older<'a>(
    unknown: &mut Vec<UnknownWord<'a>, Global>,
    options: Options,
    guest: usize,
    value: &'a str,
) -> Result<(), AllocError>
    ensures { OnOk result (map told unknown.new.items
        ≡ map told unknown.old.items
        ++ unknown_words options guest (split_at_commas value.now)) }
{
    for word in value.split(',') {
        push_older_word(unknown, options, guest, word)?;
    }
    Ok(())
}

/// Adds what is not known in a part of the command line of a guest.
fn push_part<'a>(
    unknown: &mut Vec<UnknownWord<'a>, Global>,
    options: Options,
    guest: usize,
    part: Part<'a>,
) -> Result<(), AllocError>
    ensures { OnOk result (map told unknown.new.items
        ≡ map told unknown.old.items ++ unknown_of options guest (part.entry ∷ [])) }
{
    match part {
        Part::Stray(word) => unknown.push(UnknownWord {
            guest,
            is_older: false,
            word: key_of(word),
        })?,
        Part::Valued(row, value) if matches!(row.sets, Sets::Older) => {
            push_older(unknown, options, guest, value)?;
        }
        _ => {}
    }
    Ok(())
}

/// Adds what is not known in the parts of the command line of a guest.
pub(crate) fn push_unknown<'a>(
    unknown: &mut Vec<UnknownWord<'a>, Global>,
    options: Options,
    guest: usize,
    parts: &[Part<'a>],
) -> Result<(), AllocError>
    ensures { OnOk result (map told unknown.new.items
        ≡ map told unknown.old.items ++ unknown_of options guest parts.now) }
{
    for part in parts {
        push_part(unknown, options, guest, *part)?;
    }
    Ok(())
}
