//! What is said of all guests: what their options set up, what is found, and what is advised.

use crate::answer::{Reported, Request};
use crate::fields::push_finding;
use crate::kinds::{KERNEL, RECIPES, recipe_of};
use crate::losses::losses_of;
use crate::shell::push_options;
use crate::summary::{Page, Told, groups_of, is_in_namespace, is_of_root, told_guests};
use crate::words::{Done, Found, Guest, Made, Set};
use std::alloc::Global;
use virtiofs_findings::advice::Advised;
use virtiofs_findings::audit::{has_accepted, has_found, is_accepted};
use virtiofs_findings::finding::{About, Kind};

/// The recipe for a finding. In a namespace, and with access control lists on, virtiofsd is to run as
/// another user, since specifications go with neither.
fn recipe_for(guests: &[Guest<'_>], sets: &[Set], finding: &Found) -> Option<&'static str> {
    let is_of_ids = matches!(finding.kind, Kind::Root | Kind::Lacking);
    if let About::Guest(number) = finding.about
        && let Some(guest) = guests.get(number.saturating_sub(1))
        && let Some(set) = sets.get(number.saturating_sub(1))
        && is_of_ids
    {
        let users = set.users.as_ref();
        let has_ranges = users.is_some_and(|users| !users.ranges.is_empty());
        let in_namespace = has_ranges || is_in_namespace(guest);
        if set.posix_acl || in_namespace && finding.kind == Kind::Root {
            return Some(KERNEL);
        }
    }
    recipe_of(finding.kind)
}

impl Page<'_> {
    /// Writes those of the findings that count (`false`), those that are accepted (`true`), or both.
    fn push_those(&mut self, those: &[bool], found: &[Found]) -> Done {
        for are_accepted in those {
            let begin = if *are_accepted { "accepted: " } else { "" };
            for finding in found {
                if is_accepted(self.accepted, finding.kind) == *are_accepted {
                    self.text.push_str(begin)?;
                    push_finding(self.alloc, &mut self.text, finding)?;
                }
            }
        }
        Ok(())
    }

    /// Writes findings: those that count, and then those that are accepted.
    pub(crate) fn push_found(&mut self, found: &[Found]) -> Done {
        self.push_those(&[false, true], found)
    }

    /// Writes what is said of each guest, of those with the same options once, and of each two.
    fn push_guests(&mut self, request: Request<'_>, report: &Reported<'_>) -> Done {
        let guests = report.guests;
        let (sets, found) = (report.all.sets.as_slice(), report.all.findings.as_slice());
        for told in told_guests(self.alloc, guests, sets, found)? {
            self.push_summary(&told)?;
            self.push_known(request.known, &told)?;
            self.push_tables(request.front.ids, request.front.names, told.set)?;
            self.push_found(told.found)?;
        }
        for (first, second, group) in groups_of(self.alloc, guests, found)? {
            if first != second {
                self.push_found(group)?;
            }
        }
        Ok(())
    }

    /// Writes what is still found of guests, or between two.
    fn push_left(&mut self, guests: &[Guest<'_>], found: &[Found]) -> Done {
        for (first, second, group) in groups_of(self.alloc, guests, found)? {
            if has_found(self.accepted, group) {
                self.text.push_str("still found ")?;
                match first == second {
                    true => write!(self.text, "of guest {first}:\n")?,
                    false => write!(self.text, "between guests {first} and {second}:\n")?,
                }
                self.push_those(&[false], group)?;
            }
        }
        Ok(())
    }

    /// Writes the recipes for findings that count, each once, or that there is none.
    fn push_recipes(&mut self, guests: &[Guest<'_>], sets: &[Set], found: &[Found]) -> Done {
        let mut count = 0usize;
        for recipe in RECIPES {
            if found.iter().any(|it| {
                !is_accepted(self.accepted, it.kind) && recipe_for(guests, sets, it) == Some(recipe)
            }) {
                let begin = if count == 0 {
                    "recipes of ADMIN.md for this: "
                } else {
                    ", "
                };
                write!(self.text, "{begin}'{recipe}'")?;
                count = count.saturating_add(1);
            }
        }
        self.text.push_str(match count {
            0 => "no other options are known to mend this\n",
            _ => "\n",
        })
    }

    /// Writes what the advised options of guests that then have the same are and do, and what is lost.
    fn push_other(&mut self, before: &Set, told: &Told<'_>) -> Done {
        let numbers = told.numbers.as_str();
        write!(self.text, "  {numbers}:")?;
        push_options(self.alloc, &mut self.text, " ", "", &told.guest.options)?;
        self.text.push_str("\n")?;
        self.push_set_up("    ", told)?;
        for (_, line) in losses_of(self.alloc, before, told.set)? {
            write!(self.text, "    {line}\n")?;
        }
        Ok(())
    }

    /// Writes options that are advised, what they do, and what is still found with them.
    fn push_advised(&mut self, before: &[Set], advised: &Advised<'_, Global>) -> Done {
        let (guests, found) = (advised.guests.as_slice(), advised.findings.as_slice());
        let (sets, counts) = (advised.sets.as_slice(), has_found(self.accepted, found));
        let less = match (counts, has_accepted(self.accepted, found)) {
            (true, _) => "less",
            (false, true) => "nothing else",
            (false, false) => "nothing",
        };
        write!(self.text, "with these options {less} is found:\n")?;
        for told in told_guests(self.alloc, guests, sets, found)? {
            if let Some(set) = before.get(told.number.saturating_sub(1)) {
                self.push_other(set, &told)?;
            }
        }
        self.push_left(guests, found)?;
        if counts {
            self.push_recipes(guests, sets, found)?;
        }
        Ok(())
    }

    /// What is said at the end: what to do about what was found, or that nothing was.
    fn push_closing(&mut self, report: &Reported<'_>) -> Done {
        let (sets, found) = (report.all.sets.as_slice(), report.all.findings.as_slice());
        let are_refused = !report.all.refusals.is_empty();
        if !has_found(self.accepted, found) {
            let other = if has_accepted(self.accepted, found) {
                "else "
            } else {
                ""
            };
            let end = if are_refused { " in what is told" } else { "" };
            return write!(self.text, "nothing {other}found{end}\n");
        }
        match &report.advised {
            _ if are_refused => Ok(()),
            Some(advised) => self.push_advised(sets, advised),
            None => self.push_recipes(report.guests, sets, found),
        }
    }
}

/// Writes at the end of a text which files daemons open for the guest's root, whatever is mapped.
fn push_rights(text: &mut String, guests: &[Guest<'_>]) -> Done {
    if guests.iter().any(|guest| is_of_root(guest)) {
        text.push_str(
            "a daemon of root opens every file of its directory for the guest's root, whatever is mapped\n",
        )?;
    }
    if guests.iter().any(|guest| !is_of_root(guest)) {
        text.push_str(
            "a daemon of another user opens for the guest's root what its own user may open (with ranges that have 0: the user that 0 is), and files whose user and group its ranges have\n",
        )?;
    }
    Ok(())
}

/// What is said of the guests.
pub(crate) fn as_text(alloc: Global, request: Request<'_>, report: &Reported<'_>) -> Made<String> {
    let mut page = Page::new(alloc, request.accepted);
    page.push_guests(request, report)?;
    push_rights(&mut page.text, report.guests)?;
    page.push_closing(report)?;
    Ok(page.text)
}

/// The options of guests alone, for a script: each on a line, and a line `--` between two guests.
pub(crate) fn options_as_text(alloc: Global, guests: &[Guest<'_>]) -> Made<String> {
    let mut text = String::new(alloc);
    for (place, guest) in guests.iter().enumerate() {
        text.push_str(if place == 0 { "" } else { "--\n" })?;
        push_options(alloc, &mut text, "", "\n", &guest.options)?;
    }
    Ok(text)
}
