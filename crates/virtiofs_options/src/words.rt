//! The program's words: what is asked for, and the guests.

ghost use Rattle.std.specs.Prelude.{◌≡◌, IfOk, IfErr};
ghost use Rattle.virtiofs_options.specs.Parts.{WrongOnly};
ghost use Rattle.virtiofs_options.specs.Words.{IsFront, HasFrontFault, belongs, front_fault, rest_of, names_processes, IsAudit, IsAuditFault, AreWords, AreWrongWords};

use crate::cluster::split_words;
use crate::command::{Word, is_option, known_of, read_parts};
use crate::fault::{Fault, ReadError};
use crate::front::{Asked, asked_of, telling_of};
use crate::guest::Guest;
use crate::guests::{Guests, read_guests};
use crate::help::Telling;
use crate::line::{after_line, first_daemon, line_of, tail_of};
use crate::options::Options;
use crate::starter::ROOT;
use crate::values::{Values, values_of};
use crate::whole::is_line;
use std::alloc::Global;

/// What the words before the first `--` come to.
#[derive(Drop)]
enum Front<'a> {
    /// The program is to tell of itself.
    Tell(Telling),
    /// What is asked for, with the values of the program's own options, and what the first guest is.
    Audit(Asked, Values<'a>, Guest<'a, Global>),
}

/// Reads the words before the first `--`.
fn read_front<'a>(
    alloc: Global,
    options: Options,
    words: &[Word<'a>],
) -> Result<Front<'a>, ReadError<'a>>
    ensures read { IfOk result (IsFront options words.now) }
    ensures refused { IfErr result (WrongOnly (HasFrontFault options words.now)) }
{
    let parts = read_parts(alloc, options, words)?;
    if let Some(telling) = telling_of(parts.as_slice()) {
        return Ok(Front::Tell(telling));
    }
    let asked = asked_of(parts.as_slice())?;
    let values = values_of(alloc, parts.as_slice())?;
    let mut guest = Guest::new(alloc);
    guest.take_parts(alloc, options, parts.as_slice(), ROOT)?;
    Ok(Front::Audit(asked, values, guest))
}

/// Whether a word that is not known before the first `--` belongs to a command line of the daemon: it
/// is an option of the daemon, or no option where a word is the daemon's.
fn belongs(options: Options, words: &[&str], word: &str) -> bool
    ensures { result ≡ belongs options words.now word.now }
{
    if is_option(word) {
        return known_of(options, word.as_bytes()).is_some();
    }
    first_daemon(words).is_some()
}

/// What is told of a fault of the words before the first `--`, where these options are the daemon's.
fn front_fault<'a>(options: Options, words: &[&str], fault: Fault<'a>) -> Fault<'a>
    ensures { result ≡ front_fault options words.now fault.entry }
{
    match fault {
        Fault::Unknown(word) if is_line(options, word) => Fault::Whole(word),
        Fault::Unknown(word) if belongs(options, words, word) => Fault::BeforeDashes(word),
        _ => fault,
    }
}

/// The words after the first `--`. Without a `--`, there are none.
#[tactic(auto, using(std::proofs::lemmas::List::drop_all))]
fn rest_of<'w, 'a>(words: &'w [&'a str]) -> &'w [&'a str]
    ensures { result.now ≡ rest_of words.now }
{
    let Some(rest) = after_line(words) else {
        return tail_of(words, words.len());
    };
    rest
}

/// Whether processes are named, or those that run are asked for, and no command line.
fn names_processes(
    asked: Asked,
    values: &Values<'_>,
    first: &Guest<'_, Global>,
    words: &[&str],
) -> bool
    ensures { result ≡ names_processes asked values.now first.now words.now }
{
    (asked.running || !values.pid.is_empty()) && !first.has_any() && words.is_empty()
}

/// What the program's words come to.
#[derive(Drop)]
pub enum Words<'a> {
    /// The program is to tell of itself.
    Tell(Telling),
    /// An audit of guests: what is asked for, the values of the program's own options, and the guests
    /// of command lines, none where only processes are named.
    Audit(Asked, Values<'a>, Guests<'a>),
}

/// What the words after the first `--` come to, where `first` has the options before it.
fn audit_of<'a>(
    alloc: Global,
    of_daemon: Options,
    asked: Asked,
    values: Values<'a>,
    words: &[&'a str],
    first: Guest<'a, Global>,
) -> Result<Words<'a>, ReadError<'a>>
    ensures read { IfOk result (IsAudit of_daemon asked values.entry first.entry words.now) }
    ensures refused { IfErr result (WrongOnly (IsAuditFault of_daemon asked values.entry first.entry
        words.now)) }
{
    if names_processes(asked, &values, &first, words) {
        let guests = Guests {
            guests: Vec::new(alloc),
            unknown: Vec::new(alloc),
        };
        return Ok(Words::Audit(asked, values, guests));
    }
    match read_guests(alloc, of_daemon, words, first) {
        Ok(guests) => Ok(Words::Audit(asked, values, guests)),
        Err(error) => Err(error),
    }
}

/// Reads the program's words, where these options are its own, and those the daemon's.
///
/// # Errors
///
/// What is wrong with the words; or a request for memory was refused.
pub fn read_words<'a>(
    alloc: Global,
    own: Options,
    of_daemon: Options,
    words: &'a [&'a str],
) -> Result<Words<'a>, ReadError<'a>>
    ensures read { IfOk result (AreWords own of_daemon words.now) }
    ensures refused { IfErr result (WrongOnly (AreWrongWords own of_daemon words.now)) }
{
    let front = split_words(alloc, of_daemon, line_of(words))?;
    match read_front(alloc, own, front.as_slice()) {
        Ok(Front::Audit(asked, values, first)) => {
            audit_of(alloc, of_daemon, asked, values, rest_of(words), first)
        }
        Ok(Front::Tell(telling)) => Ok(Words::Tell(telling)),
        Err(ReadError::Wrong(fault)) => {
            Err(ReadError::Wrong(front_fault(of_daemon, words, fault)))
        }
        Err(ReadError::OutOfMemory) => Err(ReadError::OutOfMemory),
    }
}
