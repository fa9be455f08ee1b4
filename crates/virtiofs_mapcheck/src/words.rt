//! The forms of the program's words.
ghost use Rattle.std.specs.Prelude.{◌≡◌, ◌≢◌, List, ◌∷◌, All, IfOk, MatchOption, codes};
ghost use Rattle.std.specs.List.{AllZip};
ghost use Rattle.virtiofs_mapcheck.specs.Words.{words_of, ask, Asks, HasForm, HasNoForm};
ghost use Rattle.virtiofs_mapcheck.specs.WordsParts.{IsCutAtAsk, form_of};

use std::alloc::{AllocError, Allocator};
use virtiofs_map::soft_idmap::Direction;
use virtiofs_map::text;
use virtiofs_map::xattrmap::XattrName;

/// A number that is asked for in a direction.
#[derive(Clone, Copy)]
pub(crate) struct Query {
    /// The direction in which the number is mapped.
    pub(crate) direction: Direction,
    /// The number.
    pub(crate) number: u32,
}

/// What the words ask for.
#[derive(Drop)]
pub(crate) enum Words<'a, A: Allocator> {
    /// What ids become under specifications.
    Ids {
        specs: &'a [&'a str],
        queries: Vec<Query, A>,
    },
    /// What a namespace text means.
    Namespace {
        text: &'a str,
    },
    /// What becomes of a guest's name under a text of rules.
    Client {
        rules: &'a str,
        name: XattrName<'a>,
    },
    /// What the guest sees of a host's names under a text of rules.
    Server {
        rules: &'a str,
        names: &'a [&'a str],
    },
    /// Whether some rule of a text decides every name.
    Terminated {
        rules: &'a str,
    },
    /// Whether every name that passes under a text of rules is listed back.
    Audit {
        rules: &'a str,
    },
    /// Whether what the guest of one text of rules reaches is hidden under another.
    Apart {
        first: &'a str,
        second: &'a str,
    },
}

/// Reads the query of a word.
fn read_query(word: &str) -> Option<Query>
    ensures { MatchOption result ((query : _) → Asks word.now query → ⊥) (Asks word.now) }
{
    if let Some(numeral) = word.strip_prefix("guest=") {
        let Ok(number) = text::number(numeral) else {
            return None;
        };
        return Some(Query {
            direction: Direction::GuestToHost,
            number,
        });
    }
    let numeral = word.strip_prefix("host=")?;
    let Ok(number) = text::number(numeral) else {
        return None;
    };
    Some(Query {
        direction: Direction::HostToGuest,
        number,
    })
}

/// Reads the queries of words, each of which has to be one.
#[tactic(auto, using(crate::proofs::WordsLemmas::all_queries))]
fn read_queries<A: Allocator>(alloc: A, words: &[&str]) -> Result<Option<Vec<Query, A>>, AllocError>
    ensures { IfOk result (λ o. MatchOption o
        ((queries : List _) → AllZip Asks (words_of words.now) queries → ⊥)
        (λ queries. AllZip Asks (words_of words.now) queries.items)) }
{
    let mut queries = Vec::new(alloc);
    for word in words {
        let Some(query) = read_query(word) else {
            return Ok(None);
        };
        queries.push(query)?;
    }
    Ok(Some(queries))
}

/// Cuts the words at the first `ask`.
fn cut_at_ask<'a>(words: &'a [&'a str]) -> Option<(&'a [&'a str], &'a [&'a str])>
    ensures { MatchOption result
        (All (λ word. word ≢ ask) (words_of words.now))
        (λ cut. IsCutAtAsk (words_of words.now) (words_of cut.0.now) (words_of cut.1.now)) }
{
    for i in 0..words.len() {
        if words[i] == "ask" {
            return Some((&words[..i], &words[i + 1..]));
        }
    }
    None
}

/// Reads the words after `ids`.
fn read_ids<'a, A: Allocator>(
    alloc: A,
    words: &'a [&'a str],
) -> Result<Option<Words<'a, A>>, AllocError>
    ensures { IfOk result (λ o. MatchOption o
        (HasNoForm (codes "ids" ∷ words_of words.now))
        (λ read. HasForm (codes "ids" ∷ words_of words.now) (form_of read))) }
{
    let Some((specs, asked)) = cut_at_ask(words) else {
        return Ok(None);
    };
    if asked.is_empty() {
        return Ok(None);
    }
    let Some(queries) = read_queries(alloc, asked)? else {
        return Ok(None);
    };
    Ok(Some(Words::Ids { specs, queries }))
}

/// Reads the words' form, where they have one.
pub(crate) fn read_words<'a, A: Allocator>(
    alloc: A,
    words: &'a [&'a str],
) -> Result<Option<Words<'a, A>>, AllocError>
    ensures { IfOk result (λ o. MatchOption o
        (HasNoForm (words_of words.now))
        (λ read. HasForm (words_of words.now) (form_of read))) }
{
    match words {
        ["ids", others @ ..] => read_ids(alloc, others),
        ["ns", text] => Ok(Some(Words::Namespace { text })),
        ["client", rules, name] => match XattrName::new(name.as_bytes()) {
            Some(name) => Ok(Some(Words::Client { rules, name })),
            None => Ok(None),
        },
        ["server", rules, names @ ..] => Ok(Some(Words::Server { rules, names })),
        ["terminated", rules] => Ok(Some(Words::Terminated { rules })),
        ["audit", rules] => Ok(Some(Words::Audit { rules })),
        ["apart", first, second] => Ok(Some(Words::Apart { first, second })),
        _ => Ok(None),
    }
}
