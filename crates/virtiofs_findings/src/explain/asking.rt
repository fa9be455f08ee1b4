//! The questions of `--explain`, read from their texts.
ghost use Rattle.std.specs.Prelude.{◌≡◌, ◌≢◌, ◌++◌, ℕ, List, IfOk, IfErr, MatchOption};
ghost use Rattle.std.specs.Str.{chars};
ghost use Rattle.virtiofs_findings.specs.ExplainQuestion.{SaysId, IsNoName, Asks, HasQuestionFault, AreQuestions};

use crate::ids::kind::IdKind;
use std::alloc::{AllocError, Global};
use virtiofs_map::soft_idmap::Direction::{self, GuestToHost, HostToGuest};
use virtiofs_map::text::number;
use virtiofs_map::xattrmap::XattrName;

/// What `--explain` asks: what becomes of an id or of a name, on its way in that direction.
#[derive(Clone, Copy)]
pub enum Question<'a> {
    Id(IdKind, Direction, u32),
    Name(Direction, XattrName<'a>),
}

/// What is wrong with the text of a question.
#[derive(Clone, Copy)]
pub enum QuestionFault {
    /// It begins with none of the six words.
    Unknown,
    /// What follows the word is no id.
    NoId,
    /// What follows the word is no name.
    NoName,
}

/// What the texts of questions come to.
#[derive(Drop)]
pub enum Questions<'a> {
    /// These questions.
    Read(Vec<Question<'a>, Global>),
    /// This text is the first that asks nothing, and what is wrong with it.
    Wrong(&'a str, QuestionFault),
}

/// What follows a word with which a text begins.
fn after<'a>(text: &'a str, word: &str) -> Option<&'a str>
    ensures { MatchOption result ((value : List ℕ) → text.now ≢ word.now ++ value)
        (λ value. text.now ≡ word.now ++ value.now) }
{
    text.strip_prefix(word)
}

/// The id that a text says.
fn id_of(text: &str) -> Result<u32, QuestionFault>
    ensures read { IfOk result (SaysId (chars text.now)) }
    ensures refused { IfErr result (λ _. (id : ℕ) → ¬ SaysId (chars text.now) id) }
    ensures fault { IfErr result (λ fault. fault ≡ QuestionFault.NoId) }
{
    let Ok(id) = number(text) else {
        return Err(QuestionFault::NoId);
    };
    if id == u32::MAX {
        return Err(QuestionFault::NoId);
    }
    Ok(id)
}

/// The name that a text is.
fn name_of(text: &str) -> Result<XattrName<'_>, QuestionFault>
    ensures same { IfOk result (λ name. name.bytes.now ≡ text.now) }
    ensures read { IfOk result (λ _. ¬ IsNoName text.now) }
    ensures refused { IfErr result (λ _. IsNoName text.now) }
    ensures fault { IfErr result (λ fault. fault ≡ QuestionFault.NoName) }
{
    if text.is_empty() || text.len() > 255 {
        return Err(QuestionFault::NoName);
    }
    XattrName::new(text.as_bytes()).ok_or(QuestionFault::NoName)
}

/// The question that a text asks.
fn read_question(text: &str) -> Result<Question<'_>, QuestionFault>
    ensures read { IfOk result (Asks text.now) }
    ensures refused { IfErr result (HasQuestionFault text.now) }
{
    if let Some(value) = after(text, "user=") {
        return Ok(Question::Id(IdKind::Users, GuestToHost, id_of(value)?));
    }
    if let Some(value) = after(text, "group=") {
        return Ok(Question::Id(IdKind::Groups, GuestToHost, id_of(value)?));
    }
    if let Some(value) = after(text, "host-user=") {
        return Ok(Question::Id(IdKind::Users, HostToGuest, id_of(value)?));
    }
    if let Some(value) = after(text, "host-group=") {
        return Ok(Question::Id(IdKind::Groups, HostToGuest, id_of(value)?));
    }
    if let Some(value) = after(text, "name=") {
        return Ok(Question::Name(GuestToHost, name_of(value)?));
    }
    if let Some(value) = after(text, "host-name=") {
        return Ok(Question::Name(HostToGuest, name_of(value)?));
    }
    Err(QuestionFault::Unknown)
}

/// The questions that texts ask, or what is wrong with the first text that asks nothing.
pub fn read_questions<'a>(alloc: Global, texts: &[&'a str]) -> Result<Questions<'a>, AllocError>
    ensures { IfOk result (AreQuestions texts.now) }
{
    let mut questions = Vec::new(alloc);
    for place in 0..texts.len() {
        let text = texts[place];
        match read_question(text) {
            Ok(question) => questions.push(question)?,
            Err(fault) => return Ok(Questions::Wrong(text, fault)),
        }
    }
    Ok(Questions::Read(questions))
}
