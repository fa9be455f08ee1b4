//! What becomes of the names of attributes under a text of rules.
ghost use Rattle.std.specs.Prelude.{◌≡◌, OnOk, IfOk, string_bytes};
ghost use Rattle.virtiofs_map.specs.LookupAnswers.{meaning};
ghost use Rattle.virtiofs_map.specs.Names.{client_answer, server_answer};
ghost use Rattle.virtiofs_mapcheck.specs.AttributesAnswer.{undecided, AnswersName, AnswersList, list_of, AnswersClient, AnswersServer};
ghost use Rattle.virtiofs_mapcheck.specs.Words.{words_of};
ghost use Rattle.virtiofs_output.specs.Written.{written, line};
ghost use Rattle.virtiofs_mapcheck.specs.Outcome.{refusal};
ghost use Rattle.virtiofs_output.specs.declared.outcome.Answered.TheVariants.{Given};

use crate::rules::read_rules;
use std::alloc::{AllocError, Allocator};
use virtiofs_map::xattrmap::{AppliedRule, Error, ErrorKind, XattrMap, XattrName};
use virtiofs_output::outcome::Answered;
use virtiofs_output::written::push_written;

/// The line for names that no rule decides. Any other error of a lookup is answered as out of
/// memory.
fn undecided_line<A: Allocator>(alloc: A, error: &Error<A>) -> Result<String<A>, AllocError>
    ensures cause { OnOk result (error.now.cause ≡ ErrorKind.UnterminatedMapping) }
    ensures line { IfOk result (λ text. string_bytes text ≡ refusal undecided) }
{
    match error.cause {
        ErrorKind::UnterminatedMapping => {
            String::from_str(alloc, "refused: UnterminatedMapping\n")
        }
        _ => Err(AllocError),
    }
}

/// The line that says what becomes of a name.
fn client_line<A: Allocator>(
    alloc: A,
    applied: &AppliedRule<'_, A>,
) -> Result<String<A>, AllocError>
    ensures { IfOk result (λ text. AnswersName (meaning applied.now) Given (string_bytes text)) }
{
    match applied {
        AppliedRule::Pass(name) => {
            let mut text = String::from_str(alloc, "pass ")?;
            push_written(&mut text, name.as_bytes())?;
            text.push('\n')?;
            Ok(text)
        }
        AppliedRule::Deny => String::from_str(alloc, "deny\n"),
        AppliedRule::Unsupported => String::from_str(alloc, "unsupported\n"),
    }
}

/// What becomes of a guest's name under a map.
fn say_name<A: Allocator + Copy>(
    alloc: A,
    map: &XattrMap<A>,
    name: XattrName<'_>,
) -> Result<(Answered, String<A>), AllocError>
    ensures { IfOk result (λ p.
        AnswersName (client_answer map.now name.entry.bytes.now) p.0 (string_bytes p.1)) }
{
    match map.map_client_xattr(alloc, name) {
        Ok(applied) => Ok((Answered::Given, client_line(alloc, &applied)?)),
        Err(error) => Ok((Answered::Refused, undecided_line(alloc, &error)?)),
    }
}

/// What becomes of a guest's name under the rules of a text, or how the text is refused.
pub(crate) fn answer_client<A: Allocator + Copy>(
    alloc: A,
    rules: &str,
    name: XattrName<'_>,
) -> Result<(Answered, String<A>), AllocError>
    ensures { IfOk result (λ p.
        AnswersClient rules.now name.entry.bytes.now p.0 (string_bytes p.1)) }
{
    match read_rules(alloc, "", rules)? {
        Ok(map) => say_name(alloc, &map, name),
        Err(refused) => Ok((Answered::Refused, refused)),
    }
}

/// The list of names: a zero after each.
#[tactic(auto, using(std::proofs::lemmas::List::take_all))]
fn joined<A: Allocator>(alloc: A, names: &[&str]) -> Result<Vec<u8, A>, AllocError>
    ensures { IfOk result (λ list. list.items ≡ list_of (words_of names.now)) }
{
    let mut list = Vec::new(alloc);
    for name in names {
        list.extend_from_slice(name.as_bytes())?;
        list.push(0)?;
    }
    Ok(list)
}

/// The line of a list of names.
fn server_line<A: Allocator>(alloc: A, listed: &[u8]) -> Result<String<A>, AllocError>
    ensures { IfOk result (λ text. string_bytes text ≡ line (written listed.now)) }
{
    let mut text = String::new(alloc);
    push_written(&mut text, listed)?;
    text.push('\n')?;
    Ok(text)
}

/// What the guest sees of a host's names under a map.
fn say_list<A: Allocator + Copy>(
    alloc: A,
    map: &XattrMap<A>,
    names: &[&str],
) -> Result<(Answered, String<A>), AllocError>
    ensures { IfOk result (λ p. AnswersList
        (server_answer map.now (list_of (words_of names.now))) p.0 (string_bytes p.1)) }
{
    match map.map_server_xattrlist(alloc, joined(alloc, names)?) {
        Ok(listed) => Ok((Answered::Given, server_line(alloc, listed.as_slice())?)),
        Err(undecided) => Ok((Answered::Refused, undecided_line(alloc, &undecided)?)),
    }
}

/// What the guest sees of a host's names under the rules of a text, or how the text is refused.
pub(crate) fn answer_server<A: Allocator + Copy>(
    alloc: A,
    rules: &str,
    names: &[&str],
) -> Result<(Answered, String<A>), AllocError>
    ensures { IfOk result (λ p.
        AnswersServer rules.now (words_of names.now) p.0 (string_bytes p.1)) }
{
    match read_rules(alloc, "", rules)? {
        Ok(map) => say_list(alloc, &map, names),
        Err(refused) => Ok((Answered::Refused, refused)),
    }
}
