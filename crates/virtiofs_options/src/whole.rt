//! Texts that hold more than one word of a command line, as they do where quotes are wrong.
ghost use Rattle.std.specs.List.{before_first};
ghost use Rattle.std.specs.Prelude.{◌≡◌, ◌==◌, ◌<◌, length, position, IfSome};
ghost use Rattle.virtiofs_options.specs.Whole.{is_blank, is_known, is_name, begins_line, holds_option, is_line, follows};

use crate::line::is_daemon;
use crate::options::{Known, Options};

/// Whether a byte separates words: a blank, a tab or an end of a line.
fn is_blank(byte: u8) -> bool
    ensures { result ≡ is_blank byte }
{
    matches!(byte, b' ' | b'\t' | b'\n' | b'\r')
}

/// Where the first such byte of a text stands.
fn first_at(text: &[u8], at: u8) -> Option<usize>
    ensures first { result ≡ position (λ byte. byte == at) text.now }
    ensures within { IfSome result (λ place. place < length text.now) }
{
    text.iter().position(|byte| *byte == at)
}

/// What a text has before the first such byte, or all of it.
#[tactic(auto, using(crate::proofs::TextLemmas::before_position))]
pub(crate) fn before(text: &[u8], at: u8) -> &[u8]
    ensures { result.now ≡ before_first (λ byte. byte == at) text.now }
{
    match first_at(text, at) {
        Some(place) => &text[..place],
        None => text,
    }
}

/// Whether a text is an option that is known, alone or with `=` and a value.
fn is_known(options: Options, text: &[u8]) -> bool
    ensures { result ≡ is_known options text.now }
{
    is_name(options.known, before(text, b'='))
}

/// Whether a text is the name of one of these options.
pub(crate) fn is_name(known: &[Known], text: &[u8]) -> bool
    ensures { result ≡ is_name known.now text.now }
{
    known.iter().any(|it| it.name.as_bytes() == text)
}

/// Whether a text begins a command line: it is the daemon's word, or an option without `=`.
fn begins_line(options: Options, text: &[u8]) -> bool
    ensures { result ≡ begins_line options text.now }
{
    is_daemon(text) || is_name(options.known, text)
}

/// Whether one of the words in a text is an option that is known.
fn holds_option(options: Options, text: &[u8]) -> bool
    ensures { result ≡ holds_option options text.now }
{
    text.split(|byte| is_blank(*byte))
        .any(|word| is_known(options, word))
}

/// Where the first blank of a text stands.
fn first_blank(text: &[u8]) -> Option<usize>
    ensures first { result ≡ position is_blank text.now }
    ensures within { IfSome result (λ place. place < length text.now) }
{
    text.iter().position(|byte| is_blank(*byte))
}

/// Whether a word holds a command line: it has blanks, and begins one, or an option follows a blank.
pub(crate) fn is_line(options: Options, word: &str) -> bool
    ensures { result ≡ is_line options word.now }
{
    let word = word.as_bytes();
    match first_blank(word) {
        Some(place) => {
            begins_line(options, &word[..place]) || holds_option(options, &word[place + 1..])
        }
        None => false,
    }
}

/// Whether an option follows a blank in a value.
pub(crate) fn follows(options: Options, value: &str) -> bool
    ensures { result ≡ follows options value.now }
{
    let value = value.as_bytes();
    match first_blank(value) {
        Some(place) => holds_option(options, &value[place + 1..]),
        None => false,
    }
}
