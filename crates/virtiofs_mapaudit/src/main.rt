//! Says what the options of a virtiofsd do to ids and names, and what is wrong with them.
#![tactic(auto)]

mod answer;
mod explained;
mod fields;
mod files;
mod guests;
mod host;
mod json;
mod kinds;
mod losses;
mod picture;
mod running;
mod shell;
mod summary;
mod tables;
mod text;
mod whole;
mod words;

use crate::answer::{Answer, Request, answer_audit};
use crate::explained::{answer_questions, question_sentence};
use crate::files::{HostFault, Read, any_content, named_text, told};
use crate::guests::{Everyone, ProcessFault, all_guests};
use crate::host::{Host, ask};
use crate::kinds::{read_kinds, words_in};
use crate::summary::Known;
use crate::whole::{Said, whole_lines, whole_text, worst};
use crate::words::Made;
use std::alloc::Global;
use std::process::ExitCode;
use std::{env, io};
use virtiofs_findings::explain::asking::{Questions, read_questions};
use virtiofs_findings::finding::Kind;
use virtiofs_options::fault::{ReadError, fault_text};
use virtiofs_options::front::Asked;
use virtiofs_options::guests::Guests;
use virtiofs_options::help;
use virtiofs_options::options::{OF_DAEMON, OWN};
use virtiofs_options::unknown::unknown_line;
use virtiofs_options::values::Values;
use virtiofs_options::words::{Words, read_words};
use virtiofs_output::emit::emit;
use virtiofs_output::outcome::{AnswerFault, Answered, status};
use virtiofs_output::tally::{Tally, WriteFailed};

const USAGE: &str = "usage: virtiofs_mapaudit [OPTIONS] [-- COMMAND LINE OF THE DAEMON]..
virtiofs_mapaudit(1) says more: man virtiofs_mapaudit
";

/// Audits what the program's arguments set up, and writes what it finds to standard output. Texts
/// that are refused, and wrong words, are told on standard error.
///
/// The program ends with status 0 where nothing was found, 1 where a text was refused, 2 where the
/// words are wrong, 3 where memory ran out, 4 where a write or a flush failed, and 5 where something
/// was found and no text was refused. If memory ran out, nothing was written. Standard error says so,
/// and that a write failed.
fn main(rt: HostRuntime) -> ExitCode {
    let ended = run(&rt);
    // (this takes no memory: std formats on the stack)
    let _ = match ended {
        Err(AnswerFault::OutOfMemory) => eprint!(rt; "virtiofs_mapaudit: out of memory\n"),
        Err(_) => eprint!(rt; "virtiofs_mapaudit: standard output cannot be written\n"),
        Ok(_) => Ok(()),
    };
    ExitCode::from(status(ended))
}

/// Does what the arguments after the program's name ask for.
fn run(rt: &HostRuntime) -> Result<Answered, AnswerFault> {
    let arguments: Vec<String> = match env::args(rt) {
        Ok(all) => all.skip(1).collect(rt.alloc())?,
        Err(error) if error.kind() == io::ErrorKind::OutOfMemory => {
            return Err(AnswerFault::OutOfMemory);
        }
        Err(_) => return Ok(wrong(rt, "a word is not UTF-8\n")),
    };
    let words: Vec<&str> = arguments
        .iter()
        .map(|word| word.as_str())
        .collect(rt.alloc())?;
    answered(rt, words.as_slice())
}

/// Does what the words ask for.
fn answered(rt: &HostRuntime, words: &[&str]) -> Result<Answered, AnswerFault> {
    match read_words(rt.alloc(), OWN, OF_DAEMON, words) {
        Ok(Words::Tell(telling)) => {
            write_whole(rt, help::told(rt.alloc(), telling)?.as_str())?;
            Ok(Answered::Given)
        }
        Ok(Words::Audit(asked, values, guests)) => match said_of(rt, asked, &values, guests) {
            Ok(said) => told_of(rt, asked, said.as_slice()),
            Err(HostFault::Told(text)) => Ok(wrong(rt, text.as_str())),
            Err(HostFault::Missing) => Ok(wrong(rt, "a file or a process is missing\n")),
            Err(HostFault::OutOfMemory) => Err(AnswerFault::OutOfMemory),
        },
        Err(ReadError::Wrong(fault)) => Ok(wrong(rt, fault_text(rt.alloc(), fault)?.as_str())),
        Err(ReadError::OutOfMemory) => Err(AnswerFault::OutOfMemory),
    }
}

/// Tells what is wrong with the words.
fn wrong(rt: &HostRuntime, text: &str) -> Answered {
    let _ = eprint!(rt; "virtiofs_mapaudit: {text}{USAGE}");
    Answered::WrongWords
}

/// What is wrong with a process.
fn process_text(alloc: Global, fault: ProcessFault<'_>) -> Made<String> {
    match fault {
        ProcessFault::NotText(pid) => format!(in alloc; "a word of process {pid} is not UTF-8\n"),
        ProcessFault::NoDaemon(pid) => format!(in alloc; "process {pid} is no virtiofsd\n"),
        ProcessFault::Words(pid, fault) => {
            let text = fault_text(alloc, fault)?;
            format!(in alloc; "process {pid}: {text}")
        }
    }
}

/// What is answered on guests, and which words are not known.
fn answer_on(alloc: Global, asked: Request<'_>, all: &Everyone<'_>) -> Made<Answer> {
    let mut unknown = Vec::new(alloc);
    for word in all.unknown.as_slice() {
        unknown.push(unknown_line(alloc, *word)?)?;
    }
    let guests = all.guests.as_slice();
    let request = Request {
        unknown: unknown.as_slice(),
        ..asked
    };
    let mut answer = match asked.questions.is_empty() {
        true => answer_audit(alloc, request, guests)?,
        false => answer_questions(alloc, asked.questions, guests)?,
    };
    for line in unknown {
        answer.further.push(line)?;
    }
    Ok(answer)
}

/// The kinds that `--accept` names, and those in the files of `--accept-from`.
fn accepted_by(rt: &HostRuntime, values: &Values<'_>) -> Read<Vec<Kind>> {
    let mut kinds = Vec::new(rt.alloc());
    read_kinds(rt.alloc(), "", values.accept.as_slice(), &mut kinds)?;
    for path in values.accept_from.as_slice() {
        let (text, place) = (named_text(rt, path)?, format!(in rt.alloc(); "{path}: ")?);
        let words = words_in(rt.alloc(), text.as_str())?;
        read_kinds(rt.alloc(), place.as_str(), words.as_slice(), &mut kinds)?;
    }
    Ok(kinds)
}

/// The names that ids of this host have, where processes are asked for.
fn known_here(rt: &HostRuntime, has_some: bool) -> Read<Known> {
    let (mut users, mut groups) = (Vec::new(rt.alloc()), Vec::new(rt.alloc()));
    if has_some {
        users = any_content(rt, "/etc/passwd")?;
        groups = any_content(rt, "/etc/group")?;
    }
    Ok(Known { users, groups })
}

/// Reads the values of the options, asks the host, and answers.
fn said_of<'a>(
    rt: &HostRuntime,
    front: Asked,
    values: &Values<'a>,
    given: Guests<'a>,
) -> Read<Vec<Said>> {
    let accepted = accepted_by(rt, values)?;
    let questions = match read_questions(rt.alloc(), values.explain.as_slice())? {
        Questions::Read(questions) => questions,
        Questions::Wrong(text, fault) => {
            return Err(told(question_sentence(rt.alloc(), text, fault)));
        }
    };
    let host = ask(rt, front, values, given.guests.as_slice())?;
    let known = known_here(rt, front.running || !values.pid.is_empty())?;
    let asked = Request {
        front,
        accepted: accepted.as_slice(),
        known: &known,
        questions: questions.as_slice(),
        unknown: &[],
    };
    said_on(rt, asked, &host, given)
}

/// The lines on processes of a directory that are not checked.
fn not_checked(alloc: Global, unread: &[String], faults: &[ProcessFault<'_>]) -> Made<Vec<String>> {
    let mut lines = Vec::new(alloc);
    for fault in faults {
        lines.push(process_text(alloc, *fault)?)?;
    }
    let line = |why: &String| {
        let why = why.as_str().trim_end();
        format!(in alloc; "not checked: {why}")
    };
    unread
        .iter()
        .chain(lines.iter())
        .map(line)
        .try_collect(alloc)
}

/// What is said of the guests of command lines, and of those of the host's processes: of each directory
/// by itself, where those that run are asked for.
fn said_on<'a>(
    rt: &HostRuntime,
    asked: Request<'_>,
    host: &'a Host,
    given: Guests<'a>,
) -> Read<Vec<Said>> {
    let mut said = Vec::new(rt.alloc());
    let mut left = Some(given);
    for share in host.shares.as_slice() {
        let given = left.take().unwrap_or(Guests {
            guests: Vec::new(rt.alloc()),
            unknown: Vec::new(rt.alloc()),
        });
        let (starters, processes) = (host.starters.as_slice(), share.processes.as_slice());
        let all = all_guests(rt.alloc(), OF_DAEMON, given, starters, processes)?;
        if !asked.front.running
            && let Some(fault) = all.faults.first()
        {
            return Err(told(process_text(rt.alloc(), *fault)));
        }
        said.push(Said {
            directory: String::from_str(rt.alloc(), share.directory.as_str())?,
            answer: answer_on(rt.alloc(), asked, &all)?,
            has_guests: !all.guests.is_empty(),
            unread: not_checked(rt.alloc(), share.unread.as_slice(), all.faults.as_slice())?,
        })?;
    }
    Ok(said)
}

/// Writes what is said of directories.
fn told_of(rt: &HostRuntime, asked: Asked, said: &[Said]) -> Result<Answered, AnswerFault> {
    let text = whole_text(rt.alloc(), asked, said)?;
    let lines = whole_lines(rt.alloc(), asked, said)?;
    write_whole(rt, text.as_str())?;
    for line in lines.as_slice() {
        let _ = eprintln!(rt; "{line}");
    }
    Ok(worst(said))
}

/// Writes a text to standard output, and flushes.
fn write_whole(rt: &HostRuntime, text: &str) -> Result<(), WriteFailed> {
    let mut out = Tally::new(rt.stdout());
    emit(text.as_bytes(), &mut out)?;
    out.flush()
}
