//! What is said of one guest: what its options set up, what of them is refused, and which of its ids
//! have names.

use crate::words::{
    Done, Found, Guest, Ids as Span, MOST, Made, Ordinal, Set, comma, comma_or_and, one_of,
    ranging, translating,
};
use std::alloc::Global;
use virtiofs_findings::alike::{Alike, is_first, is_told, likes_of};
use virtiofs_findings::finding::{About, Kind};
use virtiofs_findings::ids::Ids;
use virtiofs_findings::ids::kind::IdKind;
use virtiofs_findings::refusal::{Refusal, Refused};
use virtiofs_findings::setup::IdSetUp;
use virtiofs_host::users::{Named, read_names};
use virtiofs_id_audit::outside::{Way, id_moved};
use virtiofs_id_audit::reaches;
use virtiofs_map::id_types::HostUid;
use virtiofs_map::idmap::UidMap;
use virtiofs_map::soft_idmap::{Direction, Outcome, Piece};
use virtiofs_options::shown::Shown;
use virtiofs_options::starter::By;

/// Guests with the same options, which are told of once.
#[derive(Drop)]
pub(crate) struct Told<'t> {
    /// The number of the first.
    pub(crate) number: usize,
    /// The numbers of all.
    pub(crate) numbers: String,
    /// The first.
    pub(crate) guest: &'t Guest<'t>,
    /// What its options set up.
    pub(crate) set: &'t Set,
    /// What is found of it by itself.
    pub(crate) found: &'t [Found],
}

/// The numbers of the guests that have the options of one, where these are the likes of each.
fn numbers_of(alloc: Global, likes: &[Alike], alike: Alike) -> Made<String> {
    let mut numbers = Vec::new(alloc);
    for (place, it) in likes.iter().enumerate() {
        if it.first == alike.first {
            numbers.push(place.saturating_add(1))?;
        }
    }
    let runs = numbers.chunk_by(|one, next| next.saturating_sub(*one) == 1);
    let runs: Vec<&[usize]> = runs.collect(alloc)?;
    let mut text = String::from_str(alloc, if alike.count > 1 { "guests " } else { "guest " })?;
    for (place, run) in runs.iter().enumerate() {
        let between = comma_or_and(place, runs.len());
        match run {
            [] => {}
            [only] => write!(text, "{between}{only}")?,
            [first, second] if runs.len() == 1 => write!(text, "{first} and {second}")?,
            [first, .., last] => write!(text, "{between}{first} to {last}")?,
        }
    }
    Ok(text)
}

/// The guests that a finding is about, the lesser number first; one guest has its number twice.
fn guests_of(finding: &Found) -> (usize, usize) {
    match finding.about {
        About::Guest(number) => (number, number),
        About::Pair(first, second) => (first.min(second), first.max(second)),
    }
}

/// Whether both are about the same guests.
pub(crate) fn are_of_same(finding: &Found, other: &Found) -> bool {
    guests_of(finding) == guests_of(other)
}

/// The numbers of two guests, the lesser first, or twice that of one, and what is found of them.
pub(crate) type Group<'f> = (usize, usize, &'f [Found]);

/// What is found, guest by guest, and of each two; of guests with the same options once.
pub(crate) fn groups_of<'f>(
    alloc: Global,
    guests: &[Guest<'_>],
    found: &'f [Found],
) -> Made<Vec<Group<'f>>> {
    let (likes, mut groups) = (likes_of(alloc, guests)?, Vec::new(alloc));
    for group in found.chunk_by(|a, b| are_of_same(a, b)) {
        if let Some(one) = group.first() {
            let (first, second) = guests_of(one);
            if is_told(likes.as_slice(), first, second) {
                groups.push((first, second, group))?;
            }
        }
    }
    Ok(groups)
}

/// The guests that are told of.
pub(crate) fn told_guests<'t>(
    alloc: Global,
    guests: &'t [Guest<'t>],
    sets: &'t [Set],
    found: &'t [Found],
) -> Made<Vec<Told<'t>>> {
    let (likes, mut all) = (likes_of(alloc, guests)?, Vec::new(alloc));
    let groups = groups_of(alloc, guests, found)?;
    for (place, (guest, set)) in guests.iter().zip(sets.iter()).enumerate() {
        let number = place.saturating_add(1);
        if let Some(alike) = likes.get(place)
            && is_first(*alike, number)
        {
            let none: &[Found] = &[];
            let group = groups.iter().find(|it| it.0 == number && it.1 == number);
            all.push(Told {
                number,
                numbers: numbers_of(alloc, likes.as_slice(), *alike)?,
                guest,
                set,
                found: group.map_or(none, |it| it.2),
            })?;
        }
    }
    Ok(all)
}

/// What the ids of a piece become; `None` where their use fails.
pub(crate) fn images_of(piece: Piece) -> Option<Span> {
    match piece.becomes {
        Outcome::Kept => Some(span_of(piece)),
        Outcome::OneToOne { to } => {
            let first = u64::from(to);
            let last = first.saturating_add(u64::from(piece.last.saturating_sub(piece.first)));
            Some(Span { first, last })
        }
        Outcome::AllToOne { to } => Some(Span::new(to, to)),
        Outcome::Forbidden => None,
    }
}

/// The ids of a piece.
pub(crate) fn span_of(piece: Piece) -> Span {
    Span::new(piece.first, piece.last)
}

/// Writes ids of which something is said at the end of a text.
fn push_subject(text: &mut String, ids: Span) -> Done {
    let verb = if ids.first == ids.last { "is" } else { "are" };
    write!(text, "{ids} {verb} ")
}

/// The pieces of a direction without 4294967295, which is no id. Where the last id of one becomes that,
/// it is a piece of its own.
pub(crate) fn pieces_of(alloc: Global, map: &Ids<Global>, way: Direction) -> Made<Vec<Piece>> {
    let mut all = Vec::new(alloc);
    for piece in map.pieces(way) {
        let last = piece.last.min(u32::MAX - 1);
        let more = last.saturating_sub(piece.first);
        match piece.becomes {
            _ if piece.first == u32::MAX => {}
            Outcome::OneToOne { to } if more > 0 && more >= u32::MAX - to => {
                let (end, last) = (last, last.saturating_sub(1));
                all.push(Piece { last, ..piece })?;
                all.push(Piece {
                    first: end,
                    last: end,
                    becomes: Outcome::AllToOne { to: u32::MAX },
                })?;
            }
            _ => all.push(Piece { last, ..piece })?,
        }
    }
    Ok(all)
}

/// What follows the ids that pieces become, where that is 4294967295.
pub(crate) const NO_ID: &str = ", which is no id";

/// Whether ids become 4294967295.
pub(crate) fn is_no_id(images: Span) -> bool {
    images.first == u64::from(u32::MAX)
}

/// Writes the ids of a piece, and what they become, at the end of a text.
fn push_clause(text: &mut String, place: &str, piece: Piece) -> Done {
    push_subject(text, span_of(piece))?;
    match images_of(piece) {
        Some(images) if is_no_id(images) => write!(text, "{images}{NO_ID}"),
        Some(images) => write!(text, "{images} {place}"),
        None => text.push_str("forbidden"),
    }
}

/// The id that a daemon can act as, if that is its own alone: in a namespace of its own, or in none.
pub(crate) fn alone_in(ranges: &[UidMap]) -> Option<u32> {
    match ranges {
        [only] if only.count == 1 && only.inside_uid == only.outside_uid => Some(only.inside_uid),
        _ => None,
    }
}

/// So many ids, of which that is the first.
fn span_from(first: u32, count: u32) -> Span {
    let first = u64::from(first);
    let last = first.saturating_add(u64::from(count).saturating_sub(1));
    Span { first, last }
}

/// Whether words start the daemon of a guest in a user namespace, and it does not run already.
pub(crate) fn is_in_namespace(guest: &Guest<'_>) -> bool {
    let runs = guest.runner.is_some_and(|runner| runner.process.is_some());
    matches!(guest.options.starter.by, By::InNamespace) && !runs
}

/// What is said of a daemon that words start in a user namespace, whose ids outside they do not tell;
/// nothing of others.
pub(crate) fn namespace_note(guest: &Guest<'_>) -> &'static str {
    match is_in_namespace(guest) {
        true =>
            " in a user namespace, which is called the host below (--pid of the running daemon tells the host's ids)",
        false => "",
    }
}

/// Whether the daemon of a guest runs as root of the host, or is taken to do so: no words say that another
/// user starts it, or in a user namespace, and it has no ranges, with which root does not start.
pub(crate) fn is_of_root(guest: &Guest<'_>) -> bool {
    let options = &guest.options;
    match guest.runner {
        _ if is_in_namespace(guest) => false,
        Some(runner) => runner.users.own == 0,
        None => {
            let has_ranges = !options.uid_map.is_empty() || !options.gid_map.is_empty();
            matches!(options.starter.by, By::Root) && !has_ranges
        }
    }
}

/// Writes who runs the daemon of a guest at the end of a text.
fn push_runner(text: &mut String, guest: &Guest<'_>) -> Done {
    let note = namespace_note(guest);
    let Some(runner) = guest.runner else {
        return match is_of_root(guest) {
            _ if !note.is_empty() => write!(text, ", started{note}"),
            true => text.push_str(", taken as started by root (--run-as USER)"),
            false => text.push_str(", taken as started by another user than root (--run-as USER)"),
        };
    };
    let own = runner.users.own;
    match runner.process {
        Some(pid) => write!(text, ", process {pid} of user {own}"),
        None => write!(text, ", started by user {own}{note}"),
    }
}

/// The line on what is refused of a guest, without a line feed. The reason is escaped, so that a line
/// feed in it begins no line of its own.
pub(crate) fn refusal_line(alloc: Global, refusal: &Refusal<Global>) -> Made<String> {
    let (guest, why) = (refusal.guest, Shown(refusal.why.as_str().as_bytes()));
    let (option, place) = match refusal.what {
        Refused::Spec(kind, place) => (translating(kind), place),
        Refused::Range(kind, place) => (ranging(kind), place),
        Refused::Own(kind) => {
            let (one, option) = (one_of(kind), ranging(kind));
            return format!(in alloc;
                "guest {guest}: as which {one} its daemon acts is not known: it has no {option}, and who starts it is not known (--run-as USER)"
            );
        }
        Refused::Rules => {
            return format!(in alloc; "guest {guest}: --xattrmap is refused: {why}");
        }
    };
    let ordinal = Ordinal(place);
    format!(in alloc; "guest {guest}: the {ordinal} {option} is refused: {why}")
}

/// The files that name users and groups of this host; empty where it is not asked.
#[derive(Drop)]
pub(crate) struct Known {
    /// The content of `/etc/passwd`.
    pub(crate) users: Vec<u8>,
    /// The content of `/etc/group`.
    pub(crate) groups: Vec<u8>,
}

/// Whether an id of the guest becomes that id, inside the namespace where there is one.
fn is_image(set: &IdSetUp<Global>, id: u32) -> bool {
    reaches(&set.map, HostUid::from(id), HostUid::from(id)).is_some()
}

/// Whether an id of the guest becomes that id of the host, and not all of them are the host's own.
fn is_reached(set: &IdSetUp<Global>, id: u32) -> bool {
    for range in set.ranges.as_slice() {
        if let Some(inside) = id_moved(Way::Inwards, range, id)
            && is_image(set, inside)
        {
            return true;
        }
    }
    set.ranges.is_empty() && !set.map.specs().is_empty() && is_image(set, id)
}

/// The first line of each id, that is not root's, which a daemon runs as or an id of its guest becomes; of
/// so many that they are not told one by one, some.
fn told_of<'a>(
    alloc: Global,
    names: &'a [u8],
    own: u32,
    set: &Option<IdSetUp<Global>>,
) -> Made<Vec<Named<'a>>> {
    let mut all: Vec<Named<'a>> = Vec::new(alloc);
    for it in read_names(alloc, names)? {
        if all.len() > MOST || it.id == 0 || it.id == u32::MAX {
            continue;
        }
        let is_told = it.id == own || set.as_ref().is_some_and(|set| is_reached(set, it.id));
        if is_told && !all.iter().any(|one| one.id == it.id) {
            all.push(it)?;
        }
    }
    Ok(all)
}

/// Writes ids of one kind with their names at the end of a text, or that they are many.
fn push_named(text: &mut String, one: &str, all: &[Named<'_>]) -> Done {
    match all.len() {
        0 => return Ok(()),
        1 => write!(text, "{one} ")?,
        count if count > MOST => return write!(text, "more than {MOST} {one}s with names"),
        _ => write!(text, "{one}s ")?,
    }
    for (place, it) in all.iter().enumerate() {
        let (comma, id, name) = (comma(place), it.id, Shown(it.name));
        write!(text, "{comma}{id} ({name})")?;
    }
    Ok(())
}

/// What is said of guests where findings of these kinds are accepted, as far as it is written.
#[derive(Drop)]
pub(crate) struct Page<'a> {
    pub(crate) alloc: Global,
    pub(crate) accepted: &'a [Kind],
    pub(crate) text: String,
}

impl<'a> Page<'a> {
    /// An empty one.
    pub(crate) fn new(alloc: Global, accepted: &'a [Kind]) -> Page<'a> {
        Page {
            alloc,
            accepted,
            text: String::new(alloc),
        }
    }

    /// Writes what the ids of a guest become: those that do not keep their number, and then that the
    /// others do; or, where nothing maps any, that all are the host's own.
    fn push_map(&mut self, map: &Ids<Global>, ranges: &[UidMap]) -> Done {
        let (place, kept_place) = match ranges.is_empty() || alone_in(ranges).is_some() {
            true => ("on the host", ""),
            false => ("in the daemon's namespace", " in the daemon's namespace"),
        };
        let pieces = pieces_of(self.alloc, map, Direction::GuestToHost)?;
        let is_moved = |it: &&Piece| it.becomes != Outcome::Kept;
        let moved: Vec<Piece> = pieces.iter().filter(is_moved).copied().collect(self.alloc)?;
        let count = moved.len();
        if count > MOST {
            write!(self.text, "in {count} ranges, which --show ids lists")?;
        } else {
            for (number, it) in moved.iter().enumerate() {
                self.text.push_str(comma(number))?;
                push_clause(&mut self.text, place, *it)?;
            }
        }
        if map.specs().is_empty() && ranges.is_empty() {
            return self.text.push_str("all are the host's own");
        }
        if count < pieces.len() {
            let kept = if count == 0 { "all" } else { ", the others" };
            write!(self.text, "{kept} keep their number{kept_place}")?;
        }
        Ok(())
    }

    /// Writes the ranges of a daemon's namespace, if any has ids.
    fn push_namespace(&mut self, kind: IdKind, ranges: &[UidMap]) -> Done {
        if let Some(id) = alone_in(ranges) {
            let one = one_of(kind);
            return write!(self.text, "; the daemon acts as {one} {id} alone");
        }
        match ranges.iter().filter(|range| range.count > 0).count() {
            0 => return Ok(()),
            count if count > MOST => return write!(self.text, "; it has {count} ranges"),
            _ => {}
        }
        let mut is_first = true;
        for range in ranges.iter().filter(|range| range.count > 0) {
            self.text.push_str(if is_first { "; its " } else { ", " })?;
            push_subject(&mut self.text, span_from(range.inside_uid, range.count))?;
            let outside = span_from(range.outside_uid, range.count);
            write!(self.text, "{outside}")?;
            is_first = false;
        }
        self.text.push_str(" on the host")
    }

    /// Writes what ids of one kind become.
    fn push_ids_line(&mut self, kind: IdKind, set: &Option<IdSetUp<Global>>) -> Done {
        let Some(set) = set else {
            return self.text.push_str("not told");
        };
        self.push_map(&set.map, set.ranges.as_slice())?;
        self.push_namespace(kind, set.ranges.as_slice())
    }

    /// Writes what is set up for names. Without rules those of access control lists pass only where these
    /// are on.
    fn push_names_line(&mut self, told: &Told<'_>) -> Done {
        let options = &told.guest.options;
        match (options.xattrmap, &told.set.names) {
            (None, _) if !options.has_xattrs() => self.text.push_str("none, xattrs are off"),
            (None, _) if options.posix_acl => self.text.push_str("all pass as they are"),
            (None, _) => self
                .text
                .push_str("all pass as they are, but those of ACLs"),
            (Some(_), None) => self.text.push_str("refused"),
            (Some(_), Some(names)) => match names.written {
                1 => self.text.push_str("1 rule"),
                written => write!(self.text, "{written} rules"),
            },
        }
    }

    /// Writes what the options of a guest set up, each line behind such a space: one each for users,
    /// groups and names, and one more if access control lists are on.
    pub(crate) fn push_set_up(&mut self, space: &str, told: &Told<'_>) -> Done {
        write!(self.text, "{space}users: ")?;
        self.push_ids_line(IdKind::Users, &told.set.users)?;
        write!(self.text, "\n{space}groups: ")?;
        self.push_ids_line(IdKind::Groups, &told.set.groups)?;
        write!(self.text, "\n{space}names: ")?;
        self.push_names_line(told)?;
        if told.guest.options.posix_acl {
            write!(self.text, "\n{space}ACLs: on")?;
        }
        self.text.push_str("\n")
    }

    /// Writes which guests are told of, and who runs the daemon of each.
    pub(crate) fn push_who(&mut self, told: &Told<'_>) -> Done {
        self.text.push_str(told.numbers.as_str())?;
        push_runner(&mut self.text, told.guest)
    }

    /// Writes what the options of guests set up, with their heading.
    pub(crate) fn push_summary(&mut self, told: &Told<'_>) -> Done {
        self.push_who(told)?;
        self.text.push_str("\n")?;
        self.push_set_up("  ", told)
    }

    /// Writes the names that ids of a daemon which runs here have, and those that ids of its guest become,
    /// on a line, if there are any.
    pub(crate) fn push_known(&mut self, known: &Known, told: &Told<'_>) -> Done {
        let Some(runner) = told.guest.runner.filter(|it| it.process.is_some()) else {
            return Ok(());
        };
        let (alloc, user, group) = (self.alloc, runner.users.own, runner.groups.own);
        let users = told_of(alloc, known.users.as_slice(), user, &told.set.users)?;
        let groups = told_of(alloc, known.groups.as_slice(), group, &told.set.groups)?;
        let (has_users, has_groups) = (!users.is_empty(), !groups.is_empty());
        if has_users || has_groups {
            self.text.push_str("  on this host: ")?;
            push_named(&mut self.text, "user", users.as_slice())?;
            self.text
                .push_str(if has_users && has_groups { "; " } else { "" })?;
            push_named(&mut self.text, "group", groups.as_slice())?;
            self.text.push_str("\n")?;
        }
        Ok(())
    }
}
