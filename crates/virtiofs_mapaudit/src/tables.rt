//! What becomes of all ids, span by span, and of some names: the tables of `--show`.

use crate::summary::{NO_ID, Page, images_of, is_no_id, pieces_of, span_of};
use crate::words::{Done, Ids as Span, Made, Set, one_of};
use std::alloc::{AllocError, Global};
use virtiofs_findings::ids::kind::IdKind;
use virtiofs_findings::setup::IdSetUp;
use virtiofs_map::idmap::UidMap;
use virtiofs_map::soft_idmap::{Direction, Outcome, Piece};
use virtiofs_map::xattrmap::{AppliedRule, ErrorKind, Side, XattrMap, XattrName};
use virtiofs_options::shown::Shown;

/// Names that stand for all where a few are looked at: those that programs use, and one for each
/// beginning.
pub(crate) const SHOWN: [&str; 9] = [
    "user.name",
    "user.overlay.opaque",
    "trusted.name",
    "trusted.overlay.opaque",
    "security.capability",
    "security.selinux",
    "security.ima",
    "system.posix_acl_access",
    "system.posix_acl_default",
];

/// Writes a piece at the end of a text, on a line.
fn push_piece(text: &mut String, from: &str, to: &str, piece: Piece) -> Done {
    let ids = span_of(piece);
    match (piece.becomes, images_of(piece)) {
        (Outcome::Kept, _) => write!(text, "  {from} {ids} -> itself\n"),
        (_, Some(images)) if is_no_id(images) => {
            write!(text, "  {from} {ids} -> {to} {images}{NO_ID}\n")
        }
        (_, Some(images)) => write!(text, "  {from} {ids} -> {to} {images}\n"),
        (_, None) => write!(text, "  {from} {ids} -> forbidden\n"),
    }
}

/// Writes what those of the ids inside the namespace that a range has are outside it, on a line.
fn push_outside(text: &mut String, range: &UidMap, ids: Span) -> Done {
    let (begin, outside) = (u64::from(range.inside_uid), u64::from(range.outside_uid));
    let end = begin + u64::from(range.count);
    let (first, past) = (ids.first.max(begin), ids.last.saturating_add(1).min(end));
    if first >= past {
        return Ok(());
    }
    let last = past - 1;
    let ids = Span { first, last };
    let (first, last) = (outside + (first - begin), outside + (last - begin));
    let images = Span { first, last };
    write!(text, "    in the namespace {ids} -> outside {images}\n")
}

/// What becomes of a name from that side: that name on the other side; or it is refused, or not listed,
/// and a word says how.
pub(crate) fn answer_of(
    alloc: Global,
    map: &XattrMap<Global>,
    side: Side,
    name: &str,
) -> Made<Result<Vec<u8>, &'static str>> {
    let name = name.as_bytes();
    match side {
        Side::Client => {
            let Some(name) = XattrName::new(name) else {
                return Ok(Err("denied"));
            };
            match map.map_client_xattr(alloc, name) {
                Ok(AppliedRule::Pass(passed)) => Ok(Ok(Vec::from_slice(alloc, passed.as_bytes())?)),
                Ok(AppliedRule::Deny) => Ok(Err("denied")),
                Ok(AppliedRule::Unsupported) => Ok(Err("unsupported")),
                Err(error) => match error.cause {
                    ErrorKind::UnterminatedMapping => Ok(Err("no rule")),
                    _ => Err(AllocError),
                },
            }
        }
        Side::Server => match map.listed_names(name).next() {
            Some(Ok(listed)) => Ok(Ok(Vec::from_slice(alloc, listed)?)),
            Some(Err(_)) => Ok(Err("no rule")),
            None => Ok(Err("hidden")),
        },
    }
}

impl Page<'_> {
    /// Writes what becomes of all ids of one kind.
    fn push_id_table(&mut self, kind: IdKind, set: &IdSetUp<Global>) -> Done {
        let one = one_of(kind);
        write!(self.text, "{one}s from the guest:\n")?;
        for piece in pieces_of(self.alloc, &set.map, Direction::GuestToHost)? {
            push_piece(&mut self.text, "guest", "host", piece)?;
            if let Some(images) = images_of(piece) {
                for range in set.ranges.as_slice() {
                    push_outside(&mut self.text, range, images)?;
                }
            }
        }
        write!(self.text, "{one}s from the host:\n")?;
        for piece in pieces_of(self.alloc, &set.map, Direction::HostToGuest)? {
            push_piece(&mut self.text, "host", "guest", piece)?;
        }
        Ok(())
    }

    /// Writes what becomes of some names from that side.
    fn push_side(&mut self, map: &XattrMap<Global>, side: Side) -> Done {
        let (from, to) = match side {
            Side::Client => ("guest", "host"),
            Side::Server => ("host", "listed as"),
        };
        write!(self.text, "names from the {from}:\n")?;
        for name in &SHOWN {
            match answer_of(self.alloc, map, side, name)? {
                Ok(other) => {
                    let other = Shown(other.as_slice());
                    write!(self.text, "  {from} {name} -> {to} {other}\n")?;
                }
                Err(word) => write!(self.text, "  {from} {name} -> {word}\n")?,
            }
        }
        Ok(())
    }

    /// Writes what becomes of some names, and which are too long then.
    fn push_name_table(&mut self, map: &XattrMap<Global>) -> Done {
        self.push_side(map, Side::Client)?;
        let most = map.most_added();
        if most > 0 {
            let longest = 255usize.saturating_sub(most);
            write!(
                self.text,
                "  guest names of more than {longest} bytes -> may be too long on the host: \
                up to {most} bytes are put before a name, and Linux takes 255\n"
            )?;
        }
        self.push_side(map, Side::Server)
    }

    /// Writes the tables of a guest that are asked for.
    pub(crate) fn push_tables(&mut self, ids: bool, names: bool, set: &Set) -> Done {
        for (kind, set) in [(IdKind::Users, &set.users), (IdKind::Groups, &set.groups)] {
            if ids && let Some(set) = set {
                self.push_id_table(kind, set)?;
            }
        }
        match &set.names {
            Some(set) if names => self.push_name_table(&set.map),
            _ => Ok(()),
        }
    }
}
