//! The answers on all directories as one: of daemons that run there may be several, and else there is one.
ghost use Rattle.std.specs.Prelude.{◌≡◌};
ghost use Rattle.virtiofs_mapaudit.specs.Whole.{is_unread, is_refused, is_found, has_unread, has_refused, has_found, worst};

use crate::answer::Answer;
use crate::json::lines_value;
use crate::words::Made;
use serde_json::json;
use std::alloc::Global;
use virtiofs_options::fault::shown;
use virtiofs_options::front::Asked;
use virtiofs_output::outcome::Answered;

/// What is said of the daemons of a directory.
#[derive(Drop)]
pub(crate) struct Said {
    /// The directory; empty where the words of the daemons say none.
    pub(crate) directory: String,
    /// The answer on those that were read.
    pub(crate) answer: Answer,
    /// Whether any was read.
    pub(crate) has_guests: bool,
    /// The lines on those that were not.
    pub(crate) unread: Vec<String>,
}

/// Whether a daemon was not read.
fn is_unread(said: &Said) -> bool
    ensures { result ≡ is_unread said.now }
{
    !said.unread.is_empty()
}

/// Whether a text was refused.
fn is_refused(said: &Said) -> bool
    ensures { result ≡ is_refused said.now.answer.outcome }
{
    matches!(said.answer.outcome, Answered::Refused)
}

/// Whether something was found that counts.
fn is_found(said: &Said) -> bool
    ensures { result ≡ is_found said.now.answer.outcome }
{
    matches!(said.answer.outcome, Answered::Found)
}

/// Whether a daemon was not read of one of the directories.
fn has_unread(all: &[Said]) -> bool
    ensures { result ≡ has_unread all.now }
{
    all.iter().any(|said| is_unread(said))
}

/// Whether a text was refused of one of them.
fn has_refused(all: &[Said]) -> bool
    ensures { result ≡ has_refused all.now }
{
    all.iter().any(|said| is_refused(said))
}

/// Whether something was found in one of them.
fn has_found(all: &[Said]) -> bool
    ensures { result ≡ has_found all.now }
{
    all.iter().any(|said| is_found(said))
}

/// How the program ends where that is said of directories: as on the worst of them.
pub(crate) fn worst(all: &[Said]) -> Answered
    ensures { result ≡ worst all.now }
{
    if has_unread(all) {
        return Answered::WrongWords;
    }
    if has_refused(all) {
        return Answered::Refused;
    }
    if has_found(all) {
        Answered::Found
    } else {
        Answered::Given
    }
}

/// The line of a directory, above what is said of it.
fn heading(alloc: Global, said: &Said) -> Made<String> {
    if said.directory.is_empty() {
        return String::from_str(alloc, "no --shared-dir is given");
    }
    let directory = shown(alloc, said.directory.as_str())?;
    format!(in alloc; "directory {directory}")
}

/// The texts of the answers on directories, each below its line where all daemons are asked for.
fn as_text(alloc: Global, running: bool, all: &[Said]) -> Made<String> {
    let mut text = String::new(alloc);
    for said in all {
        if running && !said.has_guests {
            continue;
        }
        if running {
            let heading = heading(alloc, said)?;
            write!(text, "{heading}\n")?;
        }
        text.push_str(said.answer.text.as_str())?;
    }
    Ok(text)
}

/// The same as an array of JSON.
fn as_json(alloc: Global, all: &[Said]) -> Made<String> {
    let mut text = String::from_str(alloc, "[")?;
    for (place, said) in all.iter().enumerate() {
        let directory = json!(in alloc; &said.directory)?.to_string(alloc)?;
        let unread = lines_value(alloc, said.unread.as_slice())?.to_string(alloc)?;
        let report = said.answer.text.as_str().trim_end();
        let comma = if place == 0 { "" } else { "," };
        write!(
            text,
            "{comma}{{\"directory\":{directory},\"report\":{report},\"unread\":{unread}}}"
        )?;
    }
    text.push_str("]\n")?;
    Ok(text)
}

/// What is to be written to standard output.
pub(crate) fn whole_text(alloc: Global, asked: Asked, all: &[Said]) -> Made<String> {
    if asked.quiet {
        return Ok(String::new(alloc));
    }
    if asked.running && asked.json {
        return as_json(alloc, all);
    }
    if all.is_empty() {
        return String::from_str(alloc, "no virtiofsd runs here\n");
    }
    as_text(alloc, asked.running, all)
}

/// The lines that are to be written to standard error: where nothing else is to be written, those on
/// daemons that were not read alone.
pub(crate) fn whole_lines(alloc: Global, asked: Asked, all: &[Said]) -> Made<Vec<String>> {
    let mut lines = Vec::new(alloc);
    for said in all {
        let (refusals, further) = (&said.answer.refusals, &said.answer.further);
        let those = [refusals, further, &said.unread];
        let first = if asked.quiet { 2 } else { 0 };
        if asked.running && those.iter().skip(first).any(|some| !some.is_empty()) {
            lines.push(heading(alloc, said)?)?;
        }
        for some in those.iter().skip(first) {
            for line in some.as_slice() {
                lines.push(line.clone()?)?;
            }
        }
    }
    Ok(lines)
}
