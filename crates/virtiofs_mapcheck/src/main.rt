//! Shows what an id or extended attribute mapping does.
#![tactic(auto)]

ghost use Rattle.std.specs.Prelude.{◌≡◌, ◌↔◌, ◌⊎◌, ℕ, List, IfOk, OnOk, IsTrue, IsFalse, IsErrOf};
ghost use Rattle.std.specs.Io.KnownBytes.{Appends};
ghost use Rattle.virtiofs_mapcheck.specs.Answer.{Answers};
ghost use Rattle.virtiofs_output.specs.Output.{Writes, WritesFrontOf};
ghost use Rattle.virtiofs_mapcheck.specs.Words.{words_of};

mod answer;
mod attributes;
mod audits;
mod ids;
mod namespace;
mod rules;
mod words;

use crate::answer::answer;
use std::alloc::Allocator;
use std::io::Write;
use std::process::ExitCode;
use std::{env, io};
use virtiofs_output::outcome::{AnswerFault, Answered, status};
use virtiofs_output::tally::Tally;

const USAGE: &str = "usage: virtiofs_mapcheck ids [SPEC..] ask QUERY..
       virtiofs_mapcheck ns TEXT
       virtiofs_mapcheck client RULES NAME
       virtiofs_mapcheck server RULES [NAME..]
       virtiofs_mapcheck terminated RULES
       virtiofs_mapcheck audit RULES
       virtiofs_mapcheck apart RULES RULES
virtiofs_mapcheck(1) says what each form answers: man virtiofs_mapcheck
";

/// Answers the program's arguments on standard output.
///
/// The program ends with status 0 where the words were answered, 1 where a configuration was
/// refused, 2 where the words have no form, 3 where memory ran out, and 4 where a write or a flush
/// failed. Wrong words also get a usage on standard error, and want of memory a line.
fn main(rt: HostRuntime) -> ExitCode {
    let ended = run(&rt);
    if matches!(ended, Ok(Answered::WrongWords)) {
        let _ = eprint!(rt; "{USAGE}");
    }
    if matches!(ended, Err(AnswerFault::OutOfMemory)) {
        // (this takes no memory: std formats on the stack)
        let _ = eprint!(rt; "virtiofs_mapcheck: out of memory\n");
    }
    ExitCode::from(status(ended))
}

fn run(rt: &HostRuntime) -> Result<Answered, AnswerFault> {
    let arguments = arguments(rt)?;
    let words: Vec<&str> = arguments
        .iter()
        .map(|word| word.as_str())
        .collect(rt.alloc())?;
    print_answer(rt.alloc(), words.as_slice(), &mut Tally::new(rt.stdout()))
}

// The arguments after the program's name. Where one is not UTF-8 there are none, so that they are
// answered as wrong words.
fn arguments(rt: &HostRuntime) -> Result<Vec<String>, AnswerFault> {
    match env::args(rt) {
        Ok(all) => Ok(all.skip(1).collect(rt.alloc())?),
        Err(error) if error.kind() == io::ErrorKind::OutOfMemory => Err(AnswerFault::OutOfMemory),
        Err(_) => Ok(Vec::new(rt.alloc())),
    }
}

// Writes what the words come to, and flushes, so that a writer that holds back what it takes
// cannot hide a failed write.
fn print_answer<A: Allocator + Copy, W: Write>(
    alloc: A,
    words: &[&str],
    out: &mut Tally<W>,
) -> Result<Answered, AnswerFault>
    requires { IsFalse out.old.failed }
    ensures answered { IfOk result (λ answered. (text : List ℕ)
        × Answers (words_of words.now) answered text × Writes out.old out.new text) }
    ensures out_of_memory { IsErrOf result AnswerFault.OutOfMemory → out.new ≡ out.old }
    // A fault of writing: what was written begins the text, and is the whole of it where only the
    // flush failed.
    ensures write { IsErrOf result AnswerFault.Write → (answered : _) × (text : List ℕ)
        × Answers (words_of words.now) answered text
        × (WritesFrontOf out.old out.new text ⊎ Appends out.old.bytes out.new.bytes text) }
    ensures failed { IsErrOf result AnswerFault.Write ↔ IsTrue out.new.failed }
    ensures flushed { OnOk result (IsTrue out.new.flushed) }
{
    let answered = answer(alloc, words, out)?;
    out.flush()?;
    Ok(answered)
}
