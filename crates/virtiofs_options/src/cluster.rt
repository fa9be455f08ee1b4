//! Short options that are joined in one word, as `-doxattr`, made words of their own.
ghost use Rattle.std.specs.Prelude.{◌≡◌, ◌++◌, OnOk, IfOk, map, option_map};
ghost use Rattle.virtiofs_options.specs.Clusters.{after_letter, cluster, is_bare, is_cluster, joined_in, plain, short_of, split_words, stripped, value_words, words_in};

use crate::command::{Word, is_last, is_option, known_of};
use crate::options::{Known, Options, Takes};
use std::alloc::{AllocError, Global};

/// The option that a letter names, where it is known.
fn short_of(options: Options, letter: u8) -> Option<Known>
    ensures { result ≡ short_of options letter }
{
    known_of(options, &[b'-', letter])
}

/// What a text has after another that it begins with.
#[tactic(auto, using(crate::proofs::TextLemmas::strips))]
pub(crate) fn stripped<'a>(begin: &str, text: &'a str) -> Option<&'a str>
    ensures { option_map (λ it. it.now) result ≡ stripped begin.now text.now }
{
    text.strip_prefix(begin)
}

/// The text after its first letter, which is that of a short option.
fn after_letter<'a>(name: &str, left: &'a str) -> Option<&'a str>
    ensures { option_map (λ it. it.now) result ≡ after_letter name.now left.now }
{
    match stripped("-", name) {
        Some(letter) => stripped(letter, left),
        None => None,
    }
}

/// Adds the value that follows the letter of an option, if there is one: a `=` before it is no part
/// of it.
fn push_value<'a>(words: &mut Vec<Word<'a>, Global>, value: &'a str) -> Result<(), AllocError>
    ensures { OnOk result (map plain words.new.items
        ≡ map plain words.old.items ++ value_words value.now) }
{
    if !value.is_empty() {
        let text = value.strip_prefix("=").unwrap_or(value);
        words.push(Word {
            text,
            is_joined: true,
        })?;
    }
    Ok(())
}

/// Whether an option has no value.
fn is_bare(takes: Takes) -> bool
    ensures { result ≡ is_bare takes }
{
    matches!(takes, Takes::Nothing)
}

/// The words that letters stand for, if they are those of short options: the last may have a value.
fn cluster<'a>(
    alloc: Global,
    options: Options,
    letters: &'a str,
) -> Result<Option<Vec<Word<'a>, Global>>, AllocError>
    ensures { IfOk result (λ it. option_map (λ words. map plain words.items) it
        ≡ cluster options letters.now) }
{
    let mut words = Vec::new(alloc);
    let mut left = letters;
    while let Some(letter) = left.as_bytes().first() {
        let Some(row) = short_of(options, *letter) else {
            return Ok(None);
        };
        let Some(rest) = after_letter(row.name, left) else {
            return Ok(None);
        };
        words.push(Word {
            text: row.name,
            is_joined: false,
        })?;
        if !is_bare(row.takes) {
            push_value(&mut words, rest)?;
            return Ok(Some(words));
        }
        if is_last(row.sets) {
            return Ok(Some(words));
        }
        left = rest;
    }
    Ok(Some(words))
}

/// Whether a word begins with one `-` and has letters after it.
fn is_cluster(word: &str) -> bool
    ensures { result ≡ is_cluster word.now }
{
    is_option(word) && !word.starts_with("--")
}

/// The words that a word stands for, if it is joined short options.
fn joined<'a>(
    alloc: Global,
    options: Options,
    word: &'a str,
) -> Result<Option<Vec<Word<'a>, Global>>, AllocError>
    ensures { IfOk result (λ it. option_map (λ words. map plain words.items) it
        ≡ joined_in options word.now) }
{
    if !is_cluster(word) {
        return Ok(None);
    }
    match stripped("-", word) {
        Some(letters) => cluster(alloc, options, letters),
        None => Ok(None),
    }
}

/// Adds the words that a word stands for.
fn push_words<'a>(
    alloc: Global,
    options: Options,
    word: &'a str,
    all: &mut Vec<Word<'a>, Global>,
) -> Result<(), AllocError>
    ensures { OnOk result (map plain all.new.items
        ≡ map plain all.old.items ++ words_in options word.now) }
{
    match joined(alloc, options, word)? {
        Some(words) => all.extend_from_slice(words.as_slice())?,
        None => all.push(Word {
            text: word,
            is_joined: false,
        })?,
    }
    Ok(())
}

/// The words, with those that are joined short options made words of their own.
pub(crate) fn split_words<'a>(
    alloc: Global,
    options: Options,
    words: &[&'a str],
) -> Result<Vec<Word<'a>, Global>, AllocError>
    ensures { IfOk result (λ it. map plain it.items ≡ split_words options words.now) }
{
    let mut all = Vec::new(alloc);
    for word in words {
        push_words(alloc, options, word, &mut all)?;
    }
    Ok(all)
}
