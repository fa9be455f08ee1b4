//! A report of all guests, as JSON. docs/virtiofs_mapaudit.1 has its schema.

use crate::answer::{Reported, Request};
use crate::fields::{Field, fields_of};
use crate::kinds::word_of;
use crate::losses::losses_of;
use crate::shell::{is_joined, words_of};
use crate::summary::{are_of_same, pieces_of, refusal_line};
use crate::tables::{SHOWN, answer_of};
use crate::words::{Found, Guest, Made, Set};
use serde_json::{Map, Value, json, put};
use std::alloc::Global;
use virtiofs_findings::audit::is_accepted;
use virtiofs_findings::finding::Kind;
use virtiofs_findings::ids::found::IdsFound;
use virtiofs_findings::names::found::LeastName;
use virtiofs_findings::setup::{IdSetUp, NamesSetUp};
use virtiofs_id_audit::Span;
use virtiofs_map::audit::Audit;
use virtiofs_map::idmap::UidMap;
use virtiofs_map::soft_idmap::{Direction, Outcome, Piece};
use virtiofs_map::xattrmap::{Side, XattrMap};
use virtiofs_options::front::Asked;
use virtiofs_options::shown::Shown;

/// A value that was built; an error if memory ran out.
type Built = Made<Value>;

/// Lines, each as a text.
pub(crate) fn lines_value(alloc: Global, lines: &[String]) -> Built {
    let texts = lines.iter().map(|line| json!(in alloc; line));
    Ok(Value::Array(texts.try_collect(alloc)?))
}

/// A name: as it is where it is UTF-8, and else escaped as in the lines.
fn name_value(alloc: Global, name: &[u8]) -> Built {
    match std::str::from_utf8(name) {
        Ok(text) => json!(in alloc; {"text": text, "written": false}),
        Err(_) => {
            let shown = Shown(name);
            json!(in alloc; {"text": format!(in alloc; "{shown}")?, "written": true})
        }
    }
}

/// Ids that follow one another, and more such.
fn spans_value(alloc: Global, spans: &[Span]) -> Built {
    let span = |it: &Span| json!(in alloc; {"first": it.first, "last": it.last});
    Ok(Value::Array(spans.iter().map(span).try_collect(alloc)?))
}

/// Ids of one kind that act as root of the host, or null.
fn acting_value(alloc: Global, found: Option<&IdsFound<Global>>) -> Built {
    let Some(it) = found else {
        return Ok(Value::Null);
    };
    let spans = spans_value(alloc, it.ids.as_slice())?;
    json!(in alloc; {"id": it.guest, "host": it.host, "spans": spans})
}

/// The name of an answer, or null.
fn answer_value(alloc: Global, answer: &Audit<Global>) -> Built {
    match answer {
        Audit::Yes => Ok(Value::Null),
        Audit::No(name) => name_value(alloc, name.as_name().as_bytes()),
    }
}

/// The least names: of all, and of each usual beginning.
fn least_value(alloc: Global, least: &LeastName<Global>) -> Built {
    json!(in alloc; {
        "all": name_value(alloc, least.name.as_name().as_bytes())?,
        "user": answer_value(alloc, &least.user)?,
        "trusted": answer_value(alloc, &least.trusted)?,
        "security": answer_value(alloc, &least.security)?,
        "system": answer_value(alloc, &least.system)?
    })
}

/// The value of a field; `None` for words of a sentence alone.
fn field_value(alloc: Global, field: Field<'_>) -> Made<Option<Value>> {
    Ok(Some(match field {
        Field::Phrase(_) | Field::As(..) | Field::Extent(..) | Field::Place(..) => {
            return Ok(None);
        }
        Field::Number(number) => Value::from(number),
        Field::Word(word) => Value::try_from_str(alloc, word)?,
        Field::Flag(is_so) => Value::Bool(is_so),
        Field::Null => Value::Null,
        Field::Guests(first, second) => json!(in alloc; [first, second])?,
        Field::Spans(spans) => spans_value(alloc, spans)?,
        Field::Acting(_, found) => acting_value(alloc, found)?,
        Field::Name(name) => name_value(alloc, name)?,
        Field::Least(least) => least_value(alloc, least)?,
    }))
}

/// A finding.
fn finding_value(alloc: Global, accepted: bool, finding: &Found) -> Built {
    let mut members = Map::new(alloc);
    let kind = Value::try_from_str(alloc, word_of(finding.kind))?;
    put(&mut members, alloc, "accepted", Value::Bool(accepted))?;
    put(&mut members, alloc, "kind", kind)?;
    for (key, field) in fields_of(alloc, finding)? {
        if let Some(value) = field_value(alloc, field)? {
            put(&mut members, alloc, key, value)?;
        }
    }
    Ok(Value::Object(members))
}

/// What was found of each guest, and between each two: what counts, and then what is accepted.
fn findings_value(alloc: Global, accepted: &[Kind], found: &[Found]) -> Built {
    let mut list = Vec::new(alloc);
    for group in found.chunk_by(|a, b| are_of_same(a, b)) {
        for are_accepted in [false, true] {
            for finding in group {
                if is_accepted(accepted, finding.kind) == are_accepted {
                    list.push(finding_value(alloc, are_accepted, finding)?)?;
                }
            }
        }
    }
    Ok(Value::Array(list))
}

/// A piece: its first and last id, and what becomes of them.
fn piece_value(alloc: Global, piece: &Piece) -> Built {
    let (becomes, to) = match piece.becomes {
        Outcome::Kept => ("itself", Some(piece.first)),
        Outcome::OneToOne { to } => ("one_to_one", Some(to)),
        Outcome::AllToOne { to } => ("all_to_one", Some(to)),
        Outcome::Forbidden => ("forbidden", None),
    };
    json!(in alloc; {"first": piece.first, "last": piece.last, "becomes": becomes, "to": to})
}

/// The pieces of a direction.
fn pieces_value(alloc: Global, set: &IdSetUp<Global>, direction: Direction) -> Built {
    let pieces = pieces_of(alloc, &set.map, direction)?;
    let values = pieces.iter().map(|piece| piece_value(alloc, piece));
    Ok(Value::Array(values.try_collect(alloc)?))
}

/// What becomes of all ids of one kind, and the ranges of the daemon's namespace; or null.
fn ids_value(alloc: Global, asked: bool, set: &Option<IdSetUp<Global>>) -> Built {
    let Some(set) = set.as_ref().filter(|_| asked) else {
        return Ok(Value::Null);
    };
    let range = |it: &UidMap| {
        json!(in alloc; {"inside": it.inside_uid, "outside": it.outside_uid, "count": it.count})
    };
    let ranges: Vec<Value> = set.ranges.iter().map(range).try_collect(alloc)?;
    json!(in alloc; {
        "from_guest": pieces_value(alloc, set, Direction::GuestToHost)?,
        "from_host": pieces_value(alloc, set, Direction::HostToGuest)?,
        "namespace": ranges
    })
}

/// What becomes of some names from that side.
fn side_value(alloc: Global, map: &XattrMap<Global>, side: Side) -> Built {
    let mut list = Vec::new(alloc);
    for name in &SHOWN {
        let becomes = match answer_of(alloc, map, side, name)? {
            Ok(other) => name_value(alloc, other.as_slice())?,
            Err("no rule") => Value::try_from_str(alloc, "no_rule")?,
            Err(word) => Value::try_from_str(alloc, word)?,
        };
        list.push(json!(in alloc; {"name": *name, "becomes": becomes})?)?;
    }
    Ok(Value::Array(list))
}

/// What becomes of some names, and by how many bytes a name becomes longer at most; or null.
fn names_value(alloc: Global, asked: bool, set: &Option<NamesSetUp<Global>>) -> Built {
    let Some(set) = set.as_ref().filter(|_| asked) else {
        return Ok(Value::Null);
    };
    json!(in alloc; {
        "from_guest": side_value(alloc, &set.map, Side::Client)?,
        "from_host": side_value(alloc, &set.map, Side::Server)?,
        "most_added": set.map.most_added()
    })
}

/// What was asked to be shown of the guest of a number.
fn guest_value(alloc: Global, front: Asked, number: usize, guest: &Guest<'_>, set: &Set) -> Built {
    let mut value = json!(in alloc; {
        "guest": number,
        "process": set.process,
        "users": ids_value(alloc, front.ids, &set.users)?,
        "groups": ids_value(alloc, front.ids, &set.groups)?,
        "names": names_value(alloc, front.names, &set.names)?
    })?;
    if let (Some(runner), Value::Object(members)) = (guest.runner, &mut value) {
        let (user, group) = (runner.users.own, runner.groups.own);
        let runs_as = json!(in alloc; {"user": user, "group": group})?;
        put(members, alloc, "runs_as", runs_as)?;
    }
    Ok(value)
}

/// The options of a guest, word by word.
fn options_value(alloc: Global, guest: &Guest<'_>) -> Built {
    let mut words = Vec::new(alloc);
    for (option, value) in words_of(alloc, &guest.options)? {
        match value {
            Some(value) if is_joined(value) => {
                words.push(Value::String(format!(in alloc; "{option}={value}")?))?;
            }
            Some(value) => {
                words.push(Value::try_from_str(alloc, option)?)?;
                words.push(Value::try_from_str(alloc, value)?)?;
            }
            None => words.push(Value::try_from_str(alloc, option)?)?,
        }
    }
    Ok(Value::Array(words))
}

/// What a guest loses by other options that is not to be missed.
fn losses_value(alloc: Global, before: &Set, after: &Set) -> Built {
    let losses = losses_of(alloc, before, after)?;
    let words = losses.iter().map(|(word, _)| json!(in alloc; *word));
    Ok(Value::Array(words.try_collect(alloc)?))
}

/// What is advised, or null.
fn advised_value(alloc: Global, accepted: &[Kind], report: &Reported<'_>) -> Built {
    let Some(advised) = &report.advised else {
        return Ok(Value::Null);
    };
    let options = advised.guests.iter().map(|it| options_value(alloc, it));
    let options: Vec<Value> = options.try_collect(alloc)?;
    let sets = report.all.sets.iter().zip(advised.sets.iter());
    let losses = sets.map(|(before, after)| losses_value(alloc, before, after));
    let losses: Vec<Value> = losses.try_collect(alloc)?;
    let findings = findings_value(alloc, accepted, advised.findings.as_slice())?;
    json!(in alloc; {"options": options, "losses": losses, "findings": findings})
}

/// The JSON of a report, and a line feed.
pub(crate) fn as_json(alloc: Global, request: Request<'_>, report: &Reported<'_>) -> Made<String> {
    let mut guests = Vec::new(alloc);
    for (guest, set) in report.guests.iter().zip(report.all.sets.iter()) {
        let number = guests.len().saturating_add(1);
        guests.push(guest_value(alloc, request.front, number, guest, set)?)?;
    }
    let mut refused = Vec::new(alloc);
    for refusal in report.all.refusals.as_slice() {
        refused.push(refusal_line(alloc, refusal)?)?;
    }
    let value = json!(in alloc; {
        "schema": 4,
        "guests": guests,
        "findings": findings_value(alloc, request.accepted, report.all.findings.as_slice())?,
        "refused": lines_value(alloc, refused.as_slice())?,
        "unknown": lines_value(alloc, request.unknown)?,
        "advised": advised_value(alloc, request.accepted, report)?
    })?;
    let mut text = value.to_string(alloc)?;
    text.push_str("\n")?;
    Ok(text)
}
