//! A drawing of what the options of each guest do to ids, as SVG.
//!
//! Ids of the guest stand on the left, and ids of the host on the right. Bands between them say which
//! belong together, and what is found of them.

mod bands;

use crate::answer::Reported;
use crate::shell::push_options;
use crate::summary::{Page, Told, alone_in, groups_of, refusal_line, told_guests};
use crate::words::{Done, Made, of_kind, one_of};
use bands::{BAND, LOOKS, bands_of, faulty_of, push_panel};
use std::alloc::Global;
use virtiofs_findings::audit::{Audited, has_accepted, has_found};
use virtiofs_findings::finding::Kind;
use virtiofs_findings::ids::kind::IdKind;
use virtiofs_findings::setup::IdSetUp;

/// What is set up for ids of a kind, if no value is refused.
type IdSet = Option<IdSetUp<Global>>;

/// How many findings of a guest are drawn at most.
const MOST: usize = 12;

/// How texts are painted.
const GREY: &str = "fill='#6b7280'";

const RED: &str = "fill='#b3391a'";

const BOLD: &str = "font-size='15' font-weight='bold'";

/// How a drawing begins behind its size: what hatched bands are filled with, and the ground.
const HEAD: &str = "font-family='Helvetica, Arial, sans-serif' font-size='11' fill='#1f2937'>
<title>what options of virtiofsd do to ids</title>
<defs>
<pattern id='a' width='6' height='6' patternUnits='userSpaceOnUse'><path fill='#fff' d='M0 0H6V6H0z'/><path stroke='#b3391a' stroke-width='1.5' d='M-1 1L1 -1M0 6L6 0M5 7L7 5'/></pattern>
<pattern id='b' width='6' height='6' patternUnits='userSpaceOnUse'><path fill='#e5e7eb' d='M0 0H6V6H0z'/><path stroke='#4b5563' stroke-width='1.5' d='M-1 5L1 7M0 0L6 6M5 -1L7 1'/></pattern>
</defs>
<path fill='#fff' d='M0 0H1080V";

/// Some words, or none.
fn only_if(holds: bool, words: &'static str) -> &'static str {
    if holds { words } else { "" }
}

/// How many of some words to write, where there is room for so many bytes: whole options, else whole
/// words, else whole parts of one.
fn fitting(words: &[u8], most: usize) -> usize {
    let (first, left) = words.split_at(most.min(words.len()));
    for stop in [b'\n', b' ', b':'] {
        if let Some(place) = first.iter().rposition(|byte| *byte == stop)
            && !left.is_empty()
        {
            return place.saturating_add(1);
        }
    }
    first.len()
}

/// Writes the first of some words, as XML has them, and hands back those that are left.
fn push_first<'w>(text: &mut String, words: &'w [u8], most: usize) -> Made<&'w [u8]> {
    let (first, left) = words.split_at(fitting(words, most).min(words.len()));
    for byte in first {
        match byte {
            b'&' => text.push_str("&amp;")?,
            b'<' => text.push_str("&lt;")?,
            b'>' => text.push_str("&gt;")?,
            b'\n' => text.push(' ')?,
            b' '..=b'~' => text.push(char::from(*byte))?,
            _ => text.push('?')?,
        }
    }
    Ok(left)
}

/// A drawing that is being made.
#[derive(Drop)]
struct Drawing<'a> {
    /// What is drawn so far, and how far down.
    page: Page<'a>,
    y: u64,
}

impl<'a> Drawing<'a> {
    /// An empty page, for what is drawn as lines.
    fn new_page(&self) -> Page<'a> {
        Page::new(self.page.alloc, self.page.accepted)
    }

    fn skip(&mut self, height: u64) {
        self.y = self.y.saturating_add(height);
    }

    /// Writes words on lines of their own: four of them at most.
    fn push_lines(&mut self, paint: &str, words: &str) -> Done {
        let mut left = words.trim_end().as_bytes();
        for count in 1..=4 {
            self.skip(15);
            let y = self.y;
            write!(self.page.text, "<text x='20' y='{y}' {paint}>")?;
            left = push_first(&mut self.page.text, left, 150)?;
            let more = only_if(count == 4 && !left.is_empty(), " ..");
            write!(self.page.text, "{more}</text>\n")?;
            if left.is_empty() {
                break;
            }
        }
        Ok(())
    }

    /// Writes what the looks of bands mean, three below one another.
    fn push_legend(&mut self) -> Done {
        for (place, (_, fill, word)) in LOOKS.iter().enumerate() {
            let (x, y) = (place % 9 / 3 * 350 + 20, place % 3 * 20 + 20);
            write!(
                self.page.text,
                "<path fill='{fill}' {BAND} d='M{x} {y}h26v11h-26z'/>"
            )?;
            let (x, y) = (x + 34, y + 10);
            write!(self.page.text, "<text x='{x}' y='{y}'>{word}</text>\n")?;
        }
        Ok(())
    }

    /// Draws what becomes of ids of a kind, or writes why not. How high that is is handed back.
    fn push_kind(&mut self, x: u64, kind: IdKind, told: &Told<'_>) -> Made<u64> {
        let (alloc, y, one) = (self.page.alloc, self.y, one_of(kind));
        let set = of_kind(kind, &told.set.users, &told.set.groups);
        let faulty = faulty_of(&self.page, kind, told.found)?;
        let (text, mut height) = (&mut self.page.text, 0);
        write!(text, "<g transform='translate({x} {y})'>\n")?;
        match bands_of(alloc, set, faulty.as_slice())? {
            Err(why) => write!(text, "<text>{one}s: {why}</text>\n")?,
            Ok(bands) => {
                let ranges = match set {
                    Some(set) => set.ranges.as_slice(),
                    None => &[],
                };
                let is_inside = !ranges.is_empty() && alone_in(ranges).is_none();
                let outside = only_if(is_inside, ", outside the namespace");
                write!(text, "<text text-anchor='end' {GREY}>guest</text>\n")?;
                write!(text, "<text x='75' font-weight='bold'>{one}s</text>\n")?;
                write!(text, "<text x='180' {GREY}>host{outside}</text>\n")?;
                height = push_panel(alloc, text, bands.as_slice())?;
            }
        }
        text.push_str("</g>\n")?;
        Ok(height)
    }

    /// Writes what is found, a line for each finding, in paragraphs.
    fn push_findings(&mut self, lines: &str) -> Done {
        for (place, line) in lines.trim_end().split('\n').enumerate() {
            let is_accepted = line.starts_with("accepted: ");
            if place < MOST && !line.is_empty() {
                self.push_lines(if is_accepted { GREY } else { RED }, line)?;
                self.skip(3);
            }
        }
        let more = lines.split('\n').count().saturating_sub(MOST + 1);
        if more > 0 {
            let words = format!(in self.page.alloc; "and {more} more findings")?;
            self.push_lines(RED, words.as_str())?;
        }
        self.skip(8);
        Ok(())
    }

    /// Writes which guests have options, with their process, and these: drawn, and told with what they do.
    fn push_heading(&mut self, told: &Told<'_>) -> Done {
        let (mut who, mut options) = (self.new_page(), String::new(self.page.alloc));
        who.push_who(told)?;
        push_options(who.alloc, &mut options, "", "\n", &told.guest.options)?;
        options.push_str(only_if(options.is_empty(), "no option for ids or names"))?;
        let (who, options) = (who.text.as_str(), options.as_str());
        self.push_lines(BOLD, who)?;
        self.push_lines(GREY, options)?;
        write!(self.page.text, "<title>{who}</title>\n<desc>")?;
        self.page.push_summary(told)?;
        push_first(&mut self.page.text, options.as_bytes(), 6000)?;
        self.page.text.push_str("</desc>\n")
    }

    /// Draws a guest, and writes what is found of it.
    fn push_guest(&mut self, told: &Told<'_>, all: &Audited<Global>) -> Done {
        self.skip(16);
        self.page.text.push_str("<g>\n")?;
        self.push_heading(told)?;
        self.skip(28);
        let users = self.push_kind(174, IdKind::Users, told)?;
        let groups = self.push_kind(706, IdKind::Groups, told)?;
        self.skip(users.max(groups).saturating_add(32));
        let mut page = self.new_page();
        for refusal in all.refusals.iter().filter(|it| it.guest == told.number) {
            let line = refusal_line(page.alloc, refusal)?;
            write!(page.text, "{line}\n")?;
        }
        page.push_found(told.found)?;
        self.push_findings(page.text.as_str())?;
        self.page.text.push_str("</g>\n")
    }

    /// Draws guests, those with the same options once, and writes what is found of each two.
    fn push_guests(&mut self, report: &Reported<'_>) -> Done {
        let (guests, all) = (report.guests, &report.all);
        let (alloc, accepted) = (self.page.alloc, self.page.accepted);
        let (sets, found) = (all.sets.as_slice(), all.findings.as_slice());
        for told in told_guests(alloc, guests, sets, found)? {
            self.push_guest(&told, all)?;
        }
        for (first, second, group) in groups_of(alloc, guests, found)? {
            if first != second {
                let mut page = self.new_page();
                page.push_found(group)?;
                self.push_findings(page.text.as_str())?;
            }
        }
        match has_accepted(accepted, found) {
            _ if has_found(accepted, found) || !all.refusals.is_empty() => Ok(()),
            true => self.push_lines(BOLD, "nothing else found"),
            false => self.push_lines(BOLD, "nothing found"),
        }
    }
}

/// The drawing of guests, and of what is found of them.
pub(crate) fn as_svg(alloc: Global, accepted: &[Kind], report: &Reported<'_>) -> Made<String> {
    let page = Page::new(alloc, accepted);
    let mut drawing = Drawing { page, y: 72 };
    drawing.push_legend()?;
    drawing.push_guests(report)?;
    let (drawn, height) = (drawing.page.text.as_str(), drawing.y.saturating_add(20));
    format!(in alloc;
        "<svg xmlns=\"http://www.w3.org/2000/svg\" version=\"1.1\" \
        width='1080' height='{height}' viewBox='0 0 1080 {height}' {HEAD}{height}H0z'/>\n{drawn}</svg>\n"
    )
}
