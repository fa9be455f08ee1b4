//! Bands: which ids of the guest and of the host belong together, and which are at fault; and their
//! drawing between two axes, with labels.

use super::IdSet;
use crate::summary::Page;
use crate::words::{Done, Found, Made};
use std::alloc::Global;
use virtiofs_findings::audit::is_accepted;
use virtiofs_findings::finding::{Evidence, Kind};
use virtiofs_findings::ids::kind::IdKind;
use virtiofs_findings::setup::IdSetUp;
use virtiofs_id_audit::outside::{Way, id_moved, moved_all};
use virtiofs_id_audit::{Span, ids_into};
use virtiofs_map::id_types::{GuestUid, HostUid, Id};
use virtiofs_map::soft_idmap::{Direction, Piece};

/// How a band is drawn.
#[derive(Clone, Copy, PartialEq, Eq)]
pub(super) enum Look {
    Kept,
    Back,
    Moved,
    Uncovered,
    Astray,
    Root,
    Lacking,
    Forbidden,
}

/// How each look is filled, and what it means. The later ones are drawn over those before.
pub(super) const LOOKS: [(Look, &str, &str); 8] = [
    (Look::Kept, "#8fd0a8", "keeps its number on the host"),
    (Look::Back, "#d5d9df", "from the host to the guest only"),
    (Look::Moved, "#7fb0e6", "another number on the host"),
    (Look::Uncovered, "#f2b134", "keeps its number by no option"),
    (Look::Astray, "#e76f4d", "does not come back as itself"),
    (Look::Root, "#b06ab3", "acts as root of the host"),
    (Look::Lacking, "url(#a)", "not in the namespace: fails"),
    (Look::Forbidden, "url(#b)", "forbidden: fails"),
];

/// Ids of the guest, and what they are on the host, outside the namespace of the daemon: where their use
/// fails, themselves.
#[derive(Clone, Copy)]
pub(super) struct Band {
    pub(super) look: Look,
    pub(super) guest: Span,
    pub(super) host: Span,
}

/// How many bands are drawn at most.
const MOST: usize = 1000;

/// Whether an id is among ids.
fn has(ids: Span, id: u32) -> bool {
    ids.first <= id && id <= ids.last
}

/// Adds where ids begin and where they have ended. (The greatest number is no id.)
fn push_ends(numbers: &mut Vec<u32>, ids: Span) -> Done {
    numbers.extend_from_slice(&[ids.first, ids.last.saturating_add(1)])
}

/// The ids between each two of some numbers, in order.
fn between(alloc: Global, mut numbers: Vec<u32>) -> Made<Vec<Span>> {
    let mut all = Vec::new(alloc);
    numbers.sort_unstable();
    numbers.dedup();
    for (first, past) in numbers.iter().zip(numbers.iter().skip(1)) {
        let (first, last) = (*first, past.saturating_sub(1));
        all.push(Span { first, last })?;
    }
    Ok(all)
}

/// The ids of a kind that are at fault by what is found of a guest and is not accepted, with looks that
/// tell how.
pub(super) fn faulty_of(page: &Page<'_>, kind: IdKind, found: &[Found]) -> Made<Vec<Band>> {
    let mut all = Vec::new(page.alloc);
    for finding in found {
        let look = match finding.kind {
            _ if is_accepted(page.accepted, finding.kind) => continue,
            Kind::NotBack => Look::Astray,
            Kind::Lacking => Look::Lacking,
            Kind::Kept => Look::Uncovered,
            Kind::Root => Look::Root,
            _ => continue,
        };
        let found = match (&finding.evidence, kind) {
            (Evidence::Ids { ids, found, .. }, _) if *ids == kind => Some(found),
            (Evidence::BothIds(users, _), IdKind::Users) => users.as_ref(),
            (Evidence::BothIds(_, groups), IdKind::Groups) => groups.as_ref(),
            _ => None,
        };
        for ids in found.map_or([].as_slice(), |found| found.ids.as_slice()) {
            let (guest, host) = (*ids, *ids);
            all.push(Band { look, guest, host })?;
        }
    }
    Ok(all)
}

/// What an id is on the other side of the namespace.
fn moved(set: &IdSetUp<Global>, way: Way, id: u32) -> Option<u32> {
    if set.ranges.is_empty() && id < u32::MAX {
        return Some(id);
    }
    set.ranges.iter().find_map(|range| id_moved(way, range, id))
}

/// What an id of the guest is on the host, or how it is drawn where its use fails.
fn forth(set: &IdSetUp<Global>, id: u32) -> Result<u32, Look> {
    match set.map.map_guest(GuestUid::from(id)) {
        Ok(inside) => moved(set, Way::Outwards, inside.into_inner()).ok_or(Look::Lacking),
        Err(_) => Err(Look::Forbidden),
    }
}

/// What an id of the host is in the guest.
fn back(set: &IdSetUp<Global>, id: u32) -> Option<u32> {
    let inside = HostUid::from(moved(set, Way::Inwards, id)?);
    Some(set.map.map_host(inside).ok()?.into_inner())
}

/// The band of ids of the guest that have one fate. That they keep their number counts least.
fn band_of(set: &IdSetUp<Global>, faulty: &[Band], guest: Span) -> Band {
    let is_here = |band: &Band| has(band.guest, guest.first);
    let worse = faulty
        .iter()
        .rfind(|band| is_here(band) && band.look != Look::Uncovered);
    let fault = worse.or(faulty.iter().rfind(|band| is_here(band)));
    let (look, host) = match (forth(set, guest.first), forth(set, guest.last)) {
        (Ok(first), Ok(last)) => (Look::Moved, Span { first, last }),
        (Err(look), _) | (_, Err(look)) => (look, guest),
    };
    let look = match (look, fault) {
        (Look::Moved, Some(band)) => band.look,
        (Look::Moved, None) if guest == host => Look::Kept,
        _ => look,
    };
    Band { look, guest, host }
}

/// Ids of the guest, cut so that those between two cuts have one fate.
fn guest_parts(alloc: Global, set: &IdSetUp<Global>, faulty: &[Band]) -> Made<Vec<Span>> {
    let (mut cuts, first, last) = (Vec::new(alloc), 0, u32::MAX - 1);
    push_ends(&mut cuts, Span { first, last })?;
    for band in faulty {
        push_ends(&mut cuts, band.guest)?;
    }
    for piece in set.map.pieces(Direction::GuestToHost) {
        cuts.push(piece.first)?;
    }
    let ranges = set.ranges.as_slice();
    for inside in moved_all(alloc, Way::Inwards, ranges, &[Span { first, last }])? {
        for ids in ids_into(alloc, &set.map, &[inside])? {
            push_ends(&mut cuts, ids)?;
        }
    }
    between(alloc, cuts)
}

/// The same of ids of the host, which the guest has bands to.
fn host_parts(alloc: Global, set: &IdSetUp<Global>, bands: &[Band]) -> Made<Vec<Span>> {
    let (ranges, mut cuts) = (set.ranges.as_slice(), Vec::new(alloc));
    for band in bands {
        push_ends(&mut cuts, band.host)?;
    }
    for Piece { first, last, .. } in set.map.pieces(Direction::HostToGuest) {
        for ids in moved_all(alloc, Way::Outwards, ranges, &[Span { first, last }])? {
            push_ends(&mut cuts, ids)?;
        }
    }
    between(alloc, cuts)
}

/// The bands of the ids of a kind, of which some are at fault, or why there are none. Ids of the host have
/// one where they do not come from the guest as what they become there.
pub(super) fn bands_of(
    alloc: Global,
    set: &IdSet,
    faulty: &[Band],
) -> Made<Result<Vec<Band>, &'static str>> {
    let (Some(set), mut all) = (set, Vec::new(alloc)) else {
        return Ok(Err("not told"));
    };
    let most = set.ranges.len().max(faulty.len());
    if set.map.specs().len().max(most) > MOST {
        return Ok(Err("too many ranges to draw"));
    }
    for guest in guest_parts(alloc, set, faulty)?.iter().take(MOST + 1) {
        all.push(band_of(set, faulty, *guest))?;
    }
    for host in host_parts(alloc, set, all.as_slice())? {
        if let (Some(first), Some(last)) = (back(set, host.first), back(set, host.last))
            && (forth(set, first) != Ok(host.first) || forth(set, last) != Ok(host.last))
        {
            let (look, guest) = (Look::Back, Span { first, last });
            all.push(Band { look, guest, host })?;
        }
        if all.len() > MOST {
            return Ok(Err("too many ranges to draw"));
        }
    }
    Ok(Ok(all))
}

/// How bands are painted, but for their look.
pub(super) const BAND: &str = "fill-opacity='.85' stroke='#374151' stroke-opacity='.4'";

/// Ids between two ends of bands, and how far below the top they begin and end.
type Row = (Span, u64, u64);

/// All rows, in order, with room for a label each. Long ones are compressed, so that short ones can be
/// seen. Both sides have the same, so that ids which keep their number are level.
fn rows_of(alloc: Global, bands: &[Band]) -> Made<Vec<Row>> {
    let (mut numbers, mut rows, mut y) = (Vec::new(alloc), Vec::new(alloc), 12u64);
    for band in bands {
        push_ends(&mut numbers, band.guest)?;
        push_ends(&mut numbers, band.host)?;
    }
    let all = between(alloc, numbers)?;
    let stretch = (30 / (all.len() as u64).max(1)).min(3);
    for ids in all {
        let digits = u64::from(32 - ids.last.saturating_sub(ids.first).leading_zeros());
        let height = digits.saturating_mul(stretch).saturating_add(16);
        let bottom = y.saturating_add(height);
        rows.push((ids, y, bottom))?;
        y = bottom;
    }
    Ok(rows)
}

/// How far below the top ids begin and end.
fn ends(rows: &[Row], ids: Span) -> (u64, u64) {
    let (mut top, mut bottom) = (0, 0);
    for (row, begin, end) in rows {
        if row.first == ids.first {
            top = *begin;
        }
        if row.last <= ids.last {
            bottom = *end;
        }
    }
    (top, bottom)
}

/// Whether the use of the ids of a band fails.
fn fails(band: &Band) -> bool {
    band.look == Look::Lacking || band.look == Look::Forbidden
}

/// Writes which ids the rows have where a side has bands.
fn push_labels(text: &mut String, rows: &[Row], bands: &[Band], is_host: bool) -> Done {
    for (Span { first, last }, top, bottom) in rows {
        let is_there = |band: &Band| match is_host {
            true => !fails(band) && has(band.host, *first),
            false => has(band.guest, *first),
        };
        if bands.iter().any(is_there) {
            let y = top.saturating_add(*bottom) / 2;
            write!(text, "<text y='{y}'>{first}")?;
            if first < last {
                write!(text, "–{last}")?;
            }
            text.push_str("</text>\n")?;
        }
    }
    text.push_str("</g>\n")
}

/// Draws bands, with the left axis below the origin. How far down they are is handed back.
pub(super) fn push_panel(alloc: Global, text: &mut String, bands: &[Band]) -> Made<u64> {
    let rows = rows_of(alloc, bands)?;
    let (rows, height) = (rows.as_slice(), rows.last().map_or(12, |(_, _, y)| *y));
    for (look, fill, _) in &LOOKS {
        write!(text, "<path fill='{fill}' {BAND} d='M0 12")?;
        for band in bands.iter().filter(|band| band.look == *look) {
            let ((top, bottom), (far, end)) = (ends(rows, band.guest), ends(rows, band.host));
            let x = if fails(band) { 18 } else { 180 };
            write!(text, "M0 {top}L{x} {far}V{end}L0 {bottom}z\n")?;
        }
        text.push_str("'/>\n")?;
    }
    text.push_str("<path stroke='#374151' d='M0 12V")?;
    write!(text, "{height}M180 12V{height}'/>\n")?;
    text.push_str("<g text-anchor='end' transform='translate(-8 4)'>\n")?;
    push_labels(text, rows, bands, false)?;
    text.push_str("<g transform='translate(188 4)'>\n")?;
    push_labels(text, rows, bands, true)?;
    Ok(height)
}
