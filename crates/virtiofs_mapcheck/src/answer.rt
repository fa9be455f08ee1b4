//! What the program answers to its words.
ghost use Rattle.std.specs.Prelude.{◌≡◌, ◌↔◌, ℕ, List, IsTrue, IsFalse, IsErrOf, IfOk, string_bytes};
ghost use Rattle.virtiofs_mapcheck.specs.Answer.{Answers, HasOneAnswer};
ghost use Rattle.virtiofs_output.specs.Output.{Writes, WritesFrontOf};
ghost use Rattle.virtiofs_mapcheck.specs.Words.{words_of};

use crate::attributes::{answer_client, answer_server};
use crate::audits::{answer_apart, answer_audit, answer_terminated};
use crate::ids::answer_ids;
use crate::namespace::answer_namespace;
use crate::words::{Words, read_words};
use std::alloc::{AllocError, Allocator};
use std::io::Write;
use virtiofs_output::emit::emit;
use virtiofs_output::outcome::{AnswerFault, Answered};
use virtiofs_output::tally::Tally;

/// The outcome of words, and the whole text.
fn text_of<A: Allocator + Copy>(
    alloc: A,
    words: &[&str],
) -> Result<(Answered, String<A>), AllocError>
    ensures { IfOk result (λ p. Answers (words_of words.now) p.0 (string_bytes p.1)) }
{
    match read_words(alloc, words)? {
        None => Ok((
            Answered::WrongWords,
            String::from_str(alloc, "wrong words\n")?,
        )),
        Some(Words::Ids { specs, queries }) => answer_ids(alloc, specs, &queries),
        Some(Words::Namespace { text }) => answer_namespace(alloc, text),
        Some(Words::Client { rules, name }) => answer_client(alloc, rules, name),
        Some(Words::Server { rules, names }) => answer_server(alloc, rules, names),
        Some(Words::Terminated { rules }) => answer_terminated(alloc, rules),
        Some(Words::Audit { rules }) => answer_audit(alloc, rules),
        Some(Words::Apart { first, second }) => answer_apart(alloc, first, second),
    }
}

/// Answers the program's words: makes the whole text, and then writes it.
///
/// The words are those after the program's name. They come to one outcome only, with one text.
///
/// # Errors
///
/// - `OutOfMemory`: a request for memory was refused, and `out` is as it was.
/// - `Write`: a write to `out` failed, and only then. What was written before is the beginning of
///   the text, and lacks its end.
pub fn answer<A: Allocator + Copy, W: Write>(
    alloc: A,
    words: &[&str],
    out: &mut Tally<W>,
) -> Result<Answered, AnswerFault>
    requires { IsFalse out.old.failed }
    ensures answered { IfOk result (λ answered. (text : List ℕ)
        × Answers (words_of words.now) answered text × Writes out.old out.new text) }
    ensures one_answer { HasOneAnswer (words_of words.now) }
    ensures out_of_memory { IsErrOf result AnswerFault.OutOfMemory → out.new ≡ out.old }
    ensures front { IsErrOf result AnswerFault.Write → (answered : _) × (text : List ℕ)
        × Answers (words_of words.now) answered text × WritesFrontOf out.old out.new text }
    ensures failed { IsErrOf result AnswerFault.Write ↔ IsTrue out.new.failed }
{
    let (answered, text) = text_of(alloc, words)?;
    emit(text.as_bytes(), out)?;
    Ok(answered)
}
