//! The guests of an audit: those of command lines, each with who starts its daemon, and those of
//! processes.
ghost use Rattle.std.specs.Prelude.{◌≡◌, option_map, IfOk, OnOk, MatchResult};
ghost use Rattle.virtiofs_mapaudit.specs.Everyone.{starter_at, AreStarted, IsOfProcess, IsProcessFault, AddsProcess, AreEveryone};

use std::alloc::{AllocError, Global};
use virtiofs_findings::guest::Guest;
use virtiofs_host::command_line::read_command_line;
use virtiofs_host::error::ReadError as TextError;
use virtiofs_host::runner::Runner;
use virtiofs_options::fault::{Fault, ReadError};
use virtiofs_options::guest::Guest as GuestOptions;
use virtiofs_options::guests::{Guests, Process, read_process};
use virtiofs_options::options::Options;
use virtiofs_options::unknown::UnknownWord;

/// What the host tells of a process.
#[derive(Drop)]
pub(crate) struct HostProcess {
    /// The number of the process.
    pub(crate) pid: u32,
    /// What the kernel shows as its command line.
    pub(crate) cmdline: Vec<u8>,
    /// Who runs it.
    pub(crate) runner: Runner<Global>,
}

/// Why a process makes no guest.
#[derive(Clone, Copy)]
pub(crate) enum ProcessFault<'a> {
    /// A word of the process of that number is not UTF-8.
    NotText(u32),
    /// No word of the process of that number is the daemon's.
    NoDaemon(u32),
    /// The words of the process of that number are wrong.
    Words(u32, Fault<'a>),
}

/// All guests of an audit, what is not known of their command lines, and why other processes make none.
#[derive(Drop)]
pub(crate) struct Everyone<'a> {
    /// The guests.
    pub(crate) guests: Vec<Guest<'a, Global>>,
    /// What is not known.
    pub(crate) unknown: Vec<UnknownWord<'a>, Global>,
    /// Why processes make no guest.
    pub(crate) faults: Vec<ProcessFault<'a>>,
}

/// Who starts the daemon of the command line at a place, if it is known.
fn starter_at(starters: &[Option<Runner<Global>>], place: usize) -> Option<&Runner<Global>>
    ensures { option_map (λ it. it.now) result ≡ starter_at starters.now place }
{
    match starters.get(place) {
        Some(Some(runner)) => Some(runner),
        _ => None,
    }
}

/// The guests of command lines, each with who starts its daemon.
fn started<'a>(
    alloc: Global,
    given: Vec<GuestOptions<'a, Global>>,
    starters: &'a [Option<Runner<Global>>],
) -> Result<Vec<Guest<'a, Global>>, AllocError>
    ensures { IfOk result (λ guests. AreStarted starters.now 0 given.entry.items guests.items) }
{
    let mut guests = Vec::new(alloc);
    for options in given {
        let runner = starter_at(starters, guests.len());
        guests.push(Guest { options, runner })?;
    }
    Ok(guests)
}

/// A guest, and what is not known of its words.
type Told<'a> = (Guest<'a, Global>, Vec<UnknownWord<'a>, Global>);

/// The guest of that number, counted from 1, of a process, and what is not known of its words; or why the
/// process makes none.
fn guest_of<'a>(
    alloc: Global,
    of_daemon: Options,
    number: usize,
    process: &'a HostProcess,
) -> Result<Result<Told<'a>, ProcessFault<'a>>, AllocError>
    ensures { IfOk result (λ made. MatchResult made
        (λ p. IsOfProcess of_daemon number process.now p.0 p.1)
        (IsProcessFault of_daemon process.now)) }
{
    let words = match read_command_line(alloc, process.cmdline.as_slice()) {
        Ok(words) => words,
        Err(TextError::Wrong(_)) => return Ok(Err(ProcessFault::NotText(process.pid))),
        Err(TextError::OutOfMemory) => return Err(AllocError),
    };
    match read_process(alloc, of_daemon, number, words.as_slice()) {
        Ok(Process::OfGuest { guest, unknown }) => {
            let runner = Some(&process.runner);
            let options = guest;
            Ok(Ok((Guest { options, runner }, unknown)))
        }
        Ok(Process::NoDaemon) => Ok(Err(ProcessFault::NoDaemon(process.pid))),
        Err(ReadError::Wrong(fault)) => Ok(Err(ProcessFault::Words(process.pid, fault))),
        Err(ReadError::OutOfMemory) => Err(AllocError),
    }
}

/// Adds the guest of a process, or why it makes none.
fn add_process<'a>(
    alloc: Global,
    of_daemon: Options,
    process: &'a HostProcess,
    all: &mut Everyone<'a>,
) -> Result<(), AllocError>
    ensures { OnOk result (AddsProcess of_daemon process.now all.old all.new) }
{
    let number = all.guests.len() + 1;
    let (guest, unknown) = match guest_of(alloc, of_daemon, number, process)? {
        Ok(told) => told,
        Err(fault) => {
            all.faults.push(fault)?;
            return Ok(());
        }
    };
    all.guests.push(guest)?;
    all.unknown.extend_from_slice(unknown.as_slice())?;
    Ok(())
}

/// All guests: those of command lines, which these start, and then those of processes; and why other
/// processes make none.
pub(crate) fn all_guests<'a>(
    alloc: Global,
    of_daemon: Options,
    given: Guests<'a>,
    starters: &'a [Option<Runner<Global>>],
    processes: &'a [HostProcess],
) -> Result<Everyone<'a>, AllocError>
    ensures { IfOk result (AreEveryone of_daemon given.entry starters.now processes.now) }
{
    let Guests { guests, unknown } = given;
    let mut all = Everyone {
        guests: started(alloc, guests, starters)?,
        unknown,
        faults: Vec::new(alloc),
    };
    for process in processes {
        add_process(alloc, of_daemon, process, &mut all)?;
    }
    Ok(all)
}
