//! The parts of `-o`, the daemon's older form of options.
ghost use Rattle.std.specs.Prelude.{◌≡◌, ◌++◌, ◌∷◌, [], map, IfOk, OnOk};
ghost use Rattle.virtiofs_options.specs.GuestOptions.{AreOlder, after, is_older_with, older_of, older_options, older_part, plain_part, split_at_commas};

use crate::cluster::stripped;
use crate::command::Part;
use crate::options::{Known, Options, Sets, Takes};
use std::alloc::{AllocError, Allocator};

/// Whether a text is a part of `-o`.
fn is_older_with(takes: Takes, text: &str, name: &str) -> bool
    ensures { result ≡ is_older_with takes text.now name.now }
{
    match takes {
        Takes::Nothing => text == name,
        Takes::Value | Takes::AfterEquals => text.as_bytes().starts_with(name.as_bytes()),
    }
}

/// The part of `-o` that a text is, if it is known.
pub(crate) fn older_of(options: Options, text: &str) -> Option<Known>
    ensures { result ≡ older_of options text.now }
{
    options
        .older
        .iter()
        .find(|it| is_older_with(it.takes, text, it.name))
        .copied()
}

/// What a part of `-o` has after its name.
pub(crate) fn after<'a>(name: &str, text: &'a str) -> &'a str
    ensures { result.now ≡ after name.now text.now }
{
    stripped(name, text).unwrap_or("")
}

/// A part of `-o`, as the part of a command line that it is like.
pub(crate) fn older_part<'a>(options: Options, text: &'a str) -> Part<'a>
    ensures { plain_part result ≡ older_part options text.now }
{
    let Some(row) = older_of(options, text) else {
        return Part::Stray(text);
    };
    match row.takes {
        Takes::Nothing => Part::Flag(row),
        _ => Part::Valued(row, after(row.name, text)),
    }
}

/// Adds the parts in the value of a `-o`.
fn push_older<'a, A: Allocator>(
    older: &mut Vec<Part<'a>, A>,
    options: Options,
    texts: &'a str,
) -> Result<(), AllocError>
    ensures { OnOk result (map plain_part older.new.items
        ≡ map plain_part older.old.items ++ map (older_part options) (split_at_commas texts.now)) }
{
    for text in texts.split(',') {
        older.push(older_part(options, text))?;
    }
    Ok(())
}

/// Adds the parts of `-o` in a part of a command line.
fn push_part<'a, A: Allocator>(
    older: &mut Vec<Part<'a>, A>,
    options: Options,
    part: Part<'a>,
) -> Result<(), AllocError>
    ensures { OnOk result (map plain_part older.new.items ≡ map plain_part older.old.items
        ++ map (older_part options) (older_options (part.entry ∷ []))) }
{
    match part {
        Part::Valued(row, texts) if matches!(row.sets, Sets::Older) => {
            push_older(older, options, texts)
        }
        _ => Ok(()),
    }
}

/// The parts of all `-o` among the parts of a command line.
#[tactic(auto, using(crate::proofs::GuestLemmas::are_older_more))]
pub(crate) fn older_parts<'a, A: Allocator>(
    alloc: A,
    options: Options,
    parts: &[Part<'a>],
) -> Result<Vec<Part<'a>, A>, AllocError>
    ensures { IfOk result (λ older. AreOlder options parts.now older.items) }
{
    let mut older = Vec::new(alloc);
    for part in parts {
        push_part(&mut older, options, *part)?;
    }
    Ok(older)
}
