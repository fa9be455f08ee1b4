//! The guests that command lines of the daemon make.
ghost use Rattle.std.specs.Prelude.{◌≡◌, ◌<◌, ◌≤◌, ◌+◌, ◌++◌, length, map, option_map, IfSome, IfOk, IfErr};
ghost use Rattle.virtiofs_options.specs.Guests.{start_of, lacking_fault, Told, IsLine, IsLineFault, AddsGuest, IsGuestFault, IsProcess, IsProcessFault, AreGuests, HasGuestFault};
ghost use Rattle.virtiofs_options.specs.Parts.{WrongOnly};
ghost use Rattle.virtiofs_options.specs.Unknown.{told};

use crate::cluster::split_words;
use crate::command::read_parts;
use crate::fault::{Fault, ReadError};
use crate::guest::Guest;
use crate::line::{after_line, beginning, first_daemon, line_of, tail_of};
use crate::options::Options;
use crate::starter::{ROOT, Starter, starter_of};
use crate::strays::check_line;
use crate::unknown::{UnknownWord, push_unknown};
use crate::whole::is_line;
use std::alloc::Global;

/// Guests, and what the daemon does not know of their command lines.
#[derive(Drop)]
pub struct Guests<'a> {
    /// The guests, in their order.
    pub guests: Vec<Guest<'a, Global>>,
    /// What is not known, in the order of the words.
    pub unknown: Vec<UnknownWord<'a>, Global>,
}

/// Where the command line of a guest begins. One that has options already may lack a command line.
fn start_of(options: Options, is_given: bool, words: &[&str]) -> Option<usize>
    ensures first { result ≡ start_of options is_given words.now }
    ensures within { IfSome result (λ start. start ≤ length words.now) }
{
    if let Some(start) = beginning(options, words) {
        return Some(start);
    }
    if is_given && line_of(words).is_empty() {
        return Some(0);
    }
    None
}

/// What is wrong with words in which no command line of the daemon begins.
fn lacking_fault<'a>(options: Options, number: usize, words: &[&'a str]) -> Fault<'a>
    ensures { result ≡ lacking_fault options number words.now }
{
    match words.iter().find(|word| is_line(options, word)) {
        Some(word) => Fault::Whole(word),
        None => Fault::Nothing(number),
    }
}

/// Reads the words of the command line of the guest of that number, which has the options of `first`
/// already, and of whose daemon it is said who starts it. Adds what is not known of them.
fn line_guest<'a>(
    alloc: Global,
    options: Options,
    number: usize,
    line: &[&'a str],
    starter: Starter<'a>,
    first: Guest<'a, Global>,
    unknown: &mut Vec<UnknownWord<'a>, Global>,
) -> Result<Guest<'a, Global>, ReadError<'a>>
    ensures read { IfOk result (λ guest. (here : Told)
        × IsLine options number first.entry line.now guest here
        × (map told unknown.new.items ≡ map told unknown.old.items ++ here)) }
    ensures starter { IfOk result (λ guest. guest.starter ≡ starter.entry) }
    ensures refused { IfErr result (WrongOnly (IsLineFault options line.now)) }
{
    let words = split_words(alloc, options, line)?;
    let parts = read_parts(alloc, options, words.as_slice())?;
    check_line(alloc, options, parts.as_slice())?;
    push_unknown(unknown, options, number, parts.as_slice())?;
    let mut guest = first;
    guest.take_parts(alloc, options, parts.as_slice(), starter)?;
    Ok(guest)
}

/// Reads the command line of a further guest, which words begin with, and returns what is left of the
/// words, if something is.
fn add_guest<'w, 'a>(
    alloc: Global,
    options: Options,
    words: &'w [&'a str],
    first: Guest<'a, Global>,
    read: &mut Guests<'a>,
) -> Result<Option<&'w [&'a str]>, ReadError<'a>>
    ensures read { IfOk result (λ left. AddsGuest options first.entry words.now read.old read.new
        (option_map (λ it. it.now) left)) }
    ensures shorter { IfOk result (λ left. IfSome left (λ it. length it.now < length words.now)) }
    ensures refused { IfErr result (WrongOnly (IsGuestFault options
        (length read.old.guests.items + 1) first.entry words.now)) }
{
    let number = read.guests.len() + 1;
    let Some(start) = start_of(options, first.has_any(), words) else {
        return Err(ReadError::Wrong(lacking_fault(options, number, words)));
    };
    let starter = starter_of(options, &words[..start]);
    let words = tail_of(words, start);
    match line_guest(
        alloc,
        options,
        number,
        line_of(words),
        starter,
        first,
        &mut read.unknown,
    ) {
        Ok(guest) => {
            read.guests.push(guest)?;
            Ok(after_line(words))
        }
        Err(error) => Err(error),
    }
}

/// What the words of a process come to.
#[derive(Drop)]
pub enum Process<'a> {
    /// The guest that its daemon serves, and what the daemon does not know of its command line.
    OfGuest {
        guest: Guest<'a, Global>,
        unknown: Vec<UnknownWord<'a>, Global>,
    },
    /// No word is the daemon's.
    NoDaemon,
}

/// Reads the words of a process, for the guest of that number, counted from 1, where these options are
/// the daemon's. The command line begins at the daemon's word.
///
/// # Errors
///
/// What is wrong with the command line; or a request for memory was refused.
pub fn read_process<'a>(
    alloc: Global,
    options: Options,
    number: usize,
    words: &[&'a str],
) -> Result<Process<'a>, ReadError<'a>>
    ensures read { IfOk result (IsProcess options number words.now) }
    ensures refused { IfErr result (WrongOnly (IsProcessFault options words.now)) }
{
    let Some(start) = first_daemon(words) else {
        return Ok(Process::NoDaemon);
    };
    let mut unknown = Vec::new(alloc);
    let first = Guest::new(alloc);
    let line = line_of(tail_of(words, start));
    match line_guest(alloc, options, number, line, ROOT, first, &mut unknown) {
        Ok(guest) => Ok(Process::OfGuest { guest, unknown }),
        Err(error) => Err(error),
    }
}

/// Reads the command lines of the daemon. The first is that of the guest which has the options of
/// `first` already, and each further one is that of a further guest.
///
/// # Errors
///
/// What is wrong with the first command line that is wrong; or a request for memory was refused.
pub(crate) fn read_guests<'a>(
    alloc: Global,
    options: Options,
    words: &[&'a str],
    first: Guest<'a, Global>,
) -> Result<Guests<'a>, ReadError<'a>>
    ensures read { IfOk result (λ read. AreGuests options first.entry words.now
        read.guests.items (map told read.unknown.items)) }
    ensures refused { IfErr result (WrongOnly (HasGuestFault options first.entry words.now)) }
{
    let mut read = Guests {
        guests: Vec::new(alloc),
        unknown: Vec::new(alloc),
    };
    let mut guest = first;
    let mut left = Some(words);
    while let Some(here) = left {
        match add_guest(alloc, options, here, guest, &mut read) {
            Ok(rest) => left = rest,
            Err(error) => return Err(error),
        }
        guest = Guest::new(alloc);
    }
    Ok(read)
}
