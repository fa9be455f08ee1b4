//! A command line, as Linux shows it in `/proc/PID/cmdline`.
ghost use Rattle.std.specs.Prelude.{◌≡◌, ◌<◌, ℕ, List, IfOk, IfErr, IfSome, IfNone, MatchResult, length, map};
ghost use Rattle.virtiofs_map.specs.Refusal.{IsOutOfMemory, OutOfMemoryOr};
ghost use Rattle.virtiofs_host.specs.CommandLine.{BeginsWord, AreWords, HasWrongWord};
ghost use Rattle.virtiofs_host.specs.Sequence.{wrong_place};

use crate::cut::cut;
use crate::error::ReadError;
use std::alloc::Allocator;

/// The first word of a text that is not empty, and what follows it.
#[tactic(auto, using(crate::proofs::CutLemmas::one_cut))]
fn first_word(text: &[u8]) -> Option<(&str, &[u8])>
    requires { 0 < length text.now }
    ensures begins { IfSome result (λ p. BeginsWord text.now p.0.now p.1.now) }
    ensures shorter { IfSome result (λ p. length p.1.now < length text.now) }
    ensures none { IfNone result ((word rest : List ℕ) → ¬ BeginsWord text.now word rest) }
{
    let (word, rest) = cut(text, 0);
    let Ok(word) = str::from_utf8(word) else {
        return None;
    };
    Some((word, rest.unwrap_or(&[])))
}

/// Reads the words of a command line from the content of `/proc/PID/cmdline`: a zero byte ends each
/// word, and it may be missing after the last one. A word may be empty.
///
/// # Errors
///
/// The place of the first word, counted from 0, that is not UTF-8; or a request for memory was
/// refused.
#[tactic(auto, using(crate::proofs::CommandLineLemmas::words_read))]
pub fn read_command_line<'a, A: Allocator>(
    alloc: A,
    text: &'a [u8],
) -> Result<Vec<&'a str, A>, ReadError>
    ensures read { IfOk result (λ told. AreWords text.now (map (λ word. word.now) told.items)) }
    ensures complete { (words : List (List ℕ)) → AreWords text.now words
        → MatchResult result (λ told. map (λ word. word.now) told.items ≡ words)
        (λ e. IsOutOfMemory (wrong_place e)) }
    ensures refused { IfErr result (λ e.
        OutOfMemoryOr (wrong_place e) (HasWrongWord text.now)) }
    ensures faulty { (place : ℕ) → HasWrongWord text.now place
        → MatchResult result (λ _. ⊥)
        (λ e. OutOfMemoryOr (wrong_place e) (λ told. told ≡ place)) }
{
    let mut words = Vec::new(alloc);
    let mut rest = text;
    while !rest.is_empty() {
        let Some((word, after)) = first_word(rest) else {
            return Err(ReadError::Wrong(words.len()));
        };
        words.push(word)?;
        rest = after;
    }
    Ok(words)
}
