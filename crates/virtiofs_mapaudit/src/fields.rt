//! The fields of a finding. JSON has them, and the sentence of its kind is filled with them.

use crate::kinds::sentence_of;
use crate::words::{Done, Extent, Found, Made, Ordinal, is_one, many_of, one_of, ranging};
use std::alloc::Global;
use virtiofs_findings::explain::ids::OVERFLOW_ID;
use virtiofs_findings::finding::{About, Evidence, Kind};
use virtiofs_findings::ids::found::IdsFound;
use virtiofs_findings::ids::kind::IdKind;
use virtiofs_findings::ids::ranges::{RangeFault, RangeFound};
use virtiofs_findings::names::acl::acl_name;
use virtiofs_findings::names::found::LeastName;
use virtiofs_findings::setup::NoStart;
use virtiofs_id_audit::Span;
use virtiofs_map::audit::Audit;
use virtiofs_options::shown::Shown;

/// What a field has in it.
#[derive(Clone, Copy)]
pub(crate) enum Field<'a> {
    /// Words of the sentence alone, as the three below: JSON has none of them.
    Phrase(&'static str),
    /// An id of that kind that becomes the same: `, as user 5 does,`.
    As(&'static str, u32),
    /// Ids, with the word for one or many of them.
    Extent(&'static str, &'a [Span]),
    /// A range by its option and its place, counted from 0: `the second --uid-map`.
    Place(&'static str, usize),
    /// A number.
    Number(u64),
    /// A word.
    Word(&'static str),
    /// Whether it is so.
    Flag(bool),
    /// Nothing.
    Null,
    /// Two guests.
    Guests(usize, usize),
    /// Ids.
    Spans(&'a [Span]),
    /// Ids that act as root of the host, if there are some of that kind.
    Acting(&'static str, Option<&'a IdsFound<Global>>),
    /// A name.
    Name(&'a [u8]),
    /// The least name of all, and of each usual beginning.
    Least(&'a LeastName<Global>),
}

/// The fields by their keys.
pub(crate) type Fields<'a> = Vec<(&'static str, Field<'a>)>;

/// A number that is counted from 1, of a place that is counted from 0.
fn number_at(place: usize) -> Field<'static> {
    Field::Number((place as u64).saturating_add(1))
}

/// The word for what is wrong with a range, and what its sentence says.
fn fault_words(fault: RangeFault) -> (&'static str, &'static str) {
    match fault {
        RangeFault::Empty => ("empty", "has no id"),
        RangeFault::Beyond => ("beyond", "reaches past the greatest id, 4294967294"),
        RangeFault::TooMany => ("too_many", "is one too many: Linux takes 340"),
        RangeFault::PastPage => (
            "past_page",
            "is too much: Linux takes less than 4096 bytes of them",
        ),
        RangeFault::NotGiven => (
            "not_given",
            "has ids that the user may not give to a namespace: the daemon does not start",
        ),
        RangeFault::MeetsInside(_) => ("overlaps_inside", "overlaps "),
        RangeFault::MeetsOutside(_) => ("overlaps_outside", "overlaps "),
    }
}

/// Adds a range that is at fault.
fn push_range(fields: &mut Fields<'_>, kind: IdKind, found: RangeFound) -> Done {
    let ((word, what), option) = (fault_words(found.fault), ranging(kind));
    let other = match found.fault {
        RangeFault::MeetsInside(place) => Some((place, " inside the namespace")),
        RangeFault::MeetsOutside(place) => Some((place, " outside the namespace")),
        _ => None,
    };
    fields.push(("ids", Field::Word(many_of(kind))))?;
    fields.push(("range", number_at(found.place)))?;
    fields.push(("fault", Field::Word(word)))?;
    fields.push(("place", Field::Place(option, found.place)))?;
    fields.push(("what", Field::Phrase(what)))?;
    let Some((place, side)) = other else {
        return Ok(fields.push(("other", Field::Null))?);
    };
    fields.push(("other", number_at(place)))?;
    fields.push(("second", Field::Place(option, place)))?;
    Ok(fields.push(("where", Field::Phrase(side)))?)
}

/// Adds ids, and what is told of the least of them.
fn push_ids<'a>(
    fields: &mut Fields<'a>,
    what: Kind,
    kind: IdKind,
    in_namespace: bool,
    found: &'a IdsFound<Global>,
) -> Done {
    let (one, ids, other) = (one_of(kind), found.ids.as_slice(), u64::from(found.other));
    fields.push(("ids", Field::Word(many_of(kind))))?;
    fields.push(("id", Field::Number(u64::from(found.guest))))?;
    fields.push(("host", Field::Number(u64::from(found.host))))?;
    fields.push(("spans", Field::Spans(ids)))?;
    if what == Kind::IdOfBoth {
        fields.push(("other", Field::Number(other)))?;
    }
    if what == Kind::NotBack {
        fields.push(("back", Field::Number(other)))?;
        fields.push(("shared", Field::Flag(found.is_shared)))?;
    }
    if found.is_shared {
        fields.push(("as", Field::As(one, found.other)))?;
    }
    let there = match in_namespace {
        true => "in the daemon's namespace",
        false => "of the host",
    };
    // (for 0 virtiofsd changes nothing, and Linux takes 4294967295 for no change: the daemon's own id stays)
    let why = match found.host {
        u32::MAX => "which is no id to Linux, so that virtiofsd acts as itself",
        0 => "which is not among the daemon's ids, and creates as the daemon itself",
        OVERFLOW_ID => "which is not among the daemon's ids, or which the daemon takes for itself",
        _ => "which is not among the daemon's ids",
    };
    fields.push(("one", Field::Phrase(one)))?;
    fields.push(("extent", Field::Extent(one, ids)))?;
    fields.push(("there", Field::Phrase(there)))?;
    Ok(fields.push(("why", Field::Phrase(why)))?)
}

/// Adds why a daemon does not start.
fn push_no_start(fields: &mut Fields<'_>, why: NoStart) -> Done {
    let (word, sentence) = match why {
        NoStart::MapsAsRoot => ("maps_as_root", "--uid-map and --gid-map are not for root"),
        NoStart::MapsOutside => (
            "maps_outside",
            "--uid-map and --gid-map go with --sandbox=namespace alone",
        ),
        NoStart::ChrootByUser => ("chroot_by_user", "--sandbox=chroot takes root"),
    };
    fields.push(("reason", Field::Word(word)))?;
    Ok(fields.push(("why", Field::Phrase(sentence)))?)
}

/// The fields of a finding.
pub(crate) fn fields_of<'a>(alloc: Global, finding: &'a Found) -> Made<Fields<'a>> {
    let mut fields: Fields<'a> = Vec::new(alloc);
    let about = match finding.about {
        About::Guest(guest) => ("guest", Field::Number(guest as u64)),
        About::Pair(first, second) => ("guests", Field::Guests(first, second)),
    };
    fields.push(about)?;
    match &finding.evidence {
        Evidence::Plain => {}
        Evidence::OfIds(kind) => {
            fields.push(("ids", Field::Word(many_of(*kind))))?;
            fields.push(("option", Field::Phrase(ranging(*kind))))?;
        }
        Evidence::NoStart(why) => push_no_start(&mut fields, *why)?,
        Evidence::Range(kind, range) => push_range(&mut fields, *kind, *range)?,
        Evidence::Ids {
            ids,
            in_namespace,
            found,
        } => push_ids(&mut fields, finding.kind, *ids, *in_namespace, found)?,
        Evidence::BothIds(users, groups) => {
            fields.push(("users", Field::Acting("user", users.as_ref())))?;
            fields.push(("groups", Field::Acting("group", groups.as_ref())))?;
            if users.is_some() && groups.is_some() {
                fields.push(("and", Field::Phrase(" and ")))?;
            }
        }
        Evidence::Name(least) => fields.push(("least", Field::Least(least)))?,
        Evidence::Rule(place) => fields.push(("rule", number_at(*place)))?,
        Evidence::Renamed(name, host) => {
            fields.push(("name", Field::Word(acl_name(*name))))?;
            fields.push(("becomes", Field::Name(host.as_slice())))?;
        }
    }
    Ok(fields)
}

/// Writes the least name at the end of a text, and after it the least of those that begin as usual, if
/// it is none of them.
fn push_least(text: &mut String, least: &LeastName<Global>) -> Done {
    let name = least.name.as_name().as_bytes();
    let first = Shown(name);
    write!(text, "'{first}'")?;
    let mut also = None;
    for usual in [&least.user, &least.trusted, &least.security, &least.system] {
        if let Audit::No(it) = usual {
            let it = it.as_name().as_bytes();
            if it == name {
                return Ok(());
            }
            also = also.or(Some(it));
        }
    }
    if let Some(also) = also {
        let also = Shown(also);
        write!(text, " (also '{also}')")?;
    }
    Ok(())
}

/// Writes a field at the end of a text.
fn push_field(text: &mut String, field: Field<'_>) -> Done {
    match field {
        Field::Phrase(words) | Field::Word(words) => text.push_str(words),
        Field::As(one, id) => write!(text, ", as {one} {id} does,"),
        Field::Extent(one, ids) => {
            let extent = Extent { one, ids };
            write!(text, "{extent}")
        }
        Field::Acting(one, Some(found)) => {
            let ids = found.ids.as_slice();
            let extent = Extent { one, ids };
            write!(text, "{extent}")
        }
        Field::Place(option, place) => {
            let ordinal = Ordinal(place);
            write!(text, "the {ordinal} {option}")
        }
        Field::Number(number) => write!(text, "{number}"),
        Field::Name(name) => {
            let name = Shown(name);
            write!(text, "{name}")
        }
        Field::Least(least) => push_least(text, least),
        _ => Ok(()),
    }
}

/// Whether a finding is of a single id.
fn is_of_one(finding: &Found) -> bool {
    match &finding.evidence {
        Evidence::Ids { found, .. } => is_one(found.ids.as_slice()),
        Evidence::BothIds(Some(ids), None) | Evidence::BothIds(None, Some(ids)) => {
            is_one(ids.ids.as_slice())
        }
        _ => false,
    }
}

/// Writes what a hole of a sentence stands for at the end of a text: the field that has a key, or words on
/// one or many; of two guests, `a` is the first and `b` the second.
fn push_hole(text: &mut String, finding: &Found, fields: &Fields<'_>, hole: &str) -> Done {
    if let Some((one, many)) = hole.split_once('|') {
        return text.push_str(if is_of_one(finding) { one } else { many });
    }
    match finding.about {
        About::Pair(first, _) if hole == "a" => return write!(text, "{first}"),
        About::Pair(_, second) if hole == "b" => return write!(text, "{second}"),
        _ => {}
    }
    match fields.iter().find(|(key, _)| *key == hole) {
        Some((_, field)) => push_field(text, *field),
        None => Ok(()),
    }
}

/// Writes the sentence of a finding at the end of a text, on a line.
pub(crate) fn push_finding(alloc: Global, text: &mut String, finding: &Found) -> Done {
    let fields = fields_of(alloc, finding)?;
    for piece in sentence_of(finding.kind).split('{') {
        match piece.split_once('}') {
            Some((hole, rest)) => {
                push_hole(text, finding, &fields, hole)?;
                text.push_str(rest)?;
            }
            None => text.push_str(piece)?,
        }
    }
    text.push_str("\n")
}
