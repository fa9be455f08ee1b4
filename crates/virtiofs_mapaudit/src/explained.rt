//! The lines that `--explain` writes, and the sentence on a question that is none.
ghost use Rattle.std.specs.Prelude.{IfOk};
ghost use Rattle.virtiofs_mapaudit.specs.Answers.{ReportsExplained};

use crate::answer::{Answer, outcome_of, refusal_lines};
use crate::summary::{NO_ID, namespace_note};
use crate::words::{Done, Guest, Made, Set, of_kind, one_of};
use std::alloc::Global;
use virtiofs_findings::explain::asking::{Question, QuestionFault};
use virtiofs_findings::explain::ids::{IdWays, Layer, Layers, OVERFLOW_ID, back_from};
use virtiofs_findings::explain::names::{GuestName, HostName, Listed};
use virtiofs_findings::explain::{Explained, Explanation, explain_all};
use virtiofs_findings::ids::kind::IdKind;
use virtiofs_map::soft_idmap::Direction;
use virtiofs_map::xattrmap::AppliedRule;
use virtiofs_options::fault::shown;
use virtiofs_options::shown::Shown;

/// The sentence on a text that asks nothing.
pub(crate) fn question_sentence(alloc: Global, text: &str, fault: QuestionFault) -> Made<String> {
    let value = shown(alloc, text)?;
    let reason = match fault {
        QuestionFault::Unknown => {
            "it has 'user=ID', 'host-user=ID', 'group=ID', 'host-group=ID', 'name=NAME' and \
            'host-name=NAME'"
        }
        QuestionFault::NoId => "an id is a number of at most 4294967294",
        QuestionFault::NoName => "a name has 1 to 255 bytes, none of them zero",
    };
    format!(in alloc; "'--explain' has no value {value}: {reason}\n")
}

/// Writes the rule with which a text begins at the end of another, and returns what follows it. The
/// type of a `map` rule alone begins with an m, and it has a field less than the others.
fn push_first_rule<'r>(text: &mut String, rules: &'r str) -> Made<&'r str> {
    let mut chars = rules.chars();
    let Some(delimiter) = chars.next() else {
        return Ok(rules);
    };
    text.push(delimiter)?;
    let mut rest = chars.as_str();
    let fields = if rest.starts_with('m') { 3 } else { 4 };
    for _ in 0..fields {
        let Some((field, after)) = rest.split_once(delimiter) else {
            return Ok(rest);
        };
        text.push_str(field)?;
        text.push(delimiter)?;
        rest = after;
    }
    Ok(rest)
}

/// The written rule at a place of a text of rules, counted from 0.
fn rule_at(alloc: Global, rules: &str, place: usize) -> Made<String> {
    let mut rest = rules.trim_start();
    for _ in 0..place {
        rest = push_first_rule(&mut String::new(alloc), rest)?.trim_ascii_start();
    }
    let mut rule = String::new(alloc);
    let _ = push_first_rule(&mut rule, rest)?;
    Ok(rule)
}

/// Whether virtiofsd takes a name for one of access control lists: one of these begins with it.
fn is_of_acls(name: &[u8]) -> bool {
    b"system.posix_acl_access".starts_with(name) || b"system.posix_acl_default".starts_with(name)
}

/// What is explained of a guest, as far as it is written.
#[derive(Drop)]
struct Page<'g, 'a> {
    alloc: Global,
    guest: &'g Guest<'a>,
    set: &'g Set,
    text: String,
}

impl Page<'_, '_> {
    /// Begins the line of what decides, by its place, which is counted there from 1, and its text.
    fn push_place(&mut self, word: &str, place: Option<usize>, written: &str) -> Done {
        let Some(place) = place else {
            return write!(self.text, "    no {word}");
        };
        let (number, written) = (place.saturating_add(1), Shown(written.as_bytes()));
        write!(self.text, "    {word} {number}, {written}")
    }

    /// Writes the line of the specifications.
    fn push_spec(&mut self, kind: IdKind, side: &str, layer: Layer) -> Done {
        let options = &self.guest.options;
        let specs = of_kind(kind, &options.translate_uid, &options.translate_gid);
        let spec = layer.place.and_then(|place| specs.get(place));
        self.push_place("specification", layer.place, spec.copied().unwrap_or(""))?;
        let keeps = if layer.place.is_none() {
            "keeps its number, "
        } else {
            ""
        };
        let Some(id) = layer.becomes else {
            let text = " -> forbidden: no file can be created as it, or given to it\n";
            return self.text.push_str(text);
        };
        let (one, end) = (one_of(kind), if id == u32::MAX { NO_ID } else { side });
        write!(self.text, " -> {keeps}{one} {id}{end}\n")
    }

    /// Begins the line of the ranges. They have no numbers where they are not those that are written: 65534
    /// is taken out of these.
    fn push_range_place(&mut self, kind: IdKind, place: Option<usize>) -> Done {
        let set = of_kind(kind, &self.set.users, &self.set.groups);
        let mut range = String::new(self.alloc);
        let (Some(set), Some(at)) = (set, place) else {
            return self.push_place("range", place, "");
        };
        if let Some(it) = set.ranges.get(at) {
            write!(range, "{it}")?;
        }
        if set.written.is_empty() || set.written.len() == set.ranges.len() {
            return self.push_place("range", place, range.as_str());
        }
        write!(self.text, "    range {range}")
    }

    /// Writes the line of the ranges, which have what an id is inside them.
    fn push_range(
        &mut self,
        kind: IdKind,
        direction: Direction,
        inside: Option<u32>,
        layer: Layer,
    ) -> Done {
        self.push_range_place(kind, layer.place)?;
        let (one, becomes) = (one_of(kind), layer.becomes.unwrap_or(OVERFLOW_ID));
        let fate = match (direction, layer.becomes, inside) {
            (Direction::HostToGuest, Some(_), _) => {
                return write!(self.text, " -> {one} {becomes} in the daemon's namespace\n");
            }
            (Direction::HostToGuest, None, _) => {
                return write!(
                    self.text,
                    " -> seen as {one} {becomes} in the daemon's namespace\n"
                );
            }
            (_, Some(_), _) => return write!(self.text, " -> {one} {becomes} of the host\n"),
            (_, _, Some(0)) =>
                "not among the daemon's ids: creates as the daemon itself, and no file can be given to it",
            (_, _, Some(u32::MAX)) => "virtiofsd acts as itself",
            (_, _, Some(OVERFLOW_ID)) =>
                "not among the daemon's ids, or what the daemon takes for itself: no file can be given to it",
            _ => "not among the daemon's ids: no file can be created as it, or given to it",
        };
        write!(self.text, " -> {fate}\n")
    }

    /// Writes the lines of a way in a direction.
    fn push_layers(&mut self, kind: IdKind, direction: Direction, layers: Layers) -> Done {
        let (specs, ranges) = (layers.specs, layers.ranges);
        match direction {
            Direction::GuestToHost => {
                let Some(ranges) = ranges else {
                    return self.push_spec(kind, " of the host", specs);
                };
                self.push_spec(kind, " in the daemon's namespace", specs)?;
                self.push_range(kind, direction, specs.becomes, ranges)
            }
            Direction::HostToGuest => {
                if let Some(ranges) = ranges {
                    self.push_range(kind, direction, None, ranges)?;
                }
                self.push_spec(kind, " of the guest", specs)
            }
        }
    }

    /// Writes the line that tells whether the way back leads to where it began.
    fn push_round(&mut self, is_round: bool) -> Done {
        let no = if is_round { "" } else { "no " };
        write!(self.text, "    {no}round trip\n")
    }

    /// Writes the lines of an id.
    fn push_ways(&mut self, kind: IdKind, direction: Direction, ways: IdWays) -> Done {
        self.push_layers(kind, direction, ways.there)?;
        match (ways.back, direction, ways.there.specs.becomes) {
            (None, ..) => Ok(()),
            (_, Direction::GuestToHost, Some(u32::MAX)) => {
                self.text.push_str("    virtiofsd acts as itself\n")
            }
            (Some(back), ..) => {
                self.push_layers(kind, back_from(direction), back)?;
                self.push_round(ways.is_round)
            }
        }
    }

    /// Begins the line of a name, with the rule that decides it.
    fn push_rule(&mut self, place: Option<usize>) -> Done {
        let rules = self.guest.options.xattrmap.unwrap_or("");
        let rule = rule_at(self.alloc, rules, place.unwrap_or(0))?;
        self.push_place("rule", place, rule.as_str())
    }

    /// Writes the line of a name of the host.
    fn push_host_name(&mut self, host: &HostName) -> Done {
        self.push_rule(host.rule)?;
        match &host.listed {
            Listed::Under(name) => {
                let name = Shown(name.as_slice());
                write!(self.text, " -> listed as {name}\n")
            }
            Listed::Hidden => self.text.push_str(" -> hidden\n"),
            Listed::Undecided => self.text.push_str(" -> lists fail\n"),
        }
    }

    /// Writes the lines of a name that the guest uses.
    fn push_guest_name(&mut self, guest: &GuestName<'_>) -> Done {
        self.push_rule(guest.rule)?;
        match &guest.becomes {
            Some(AppliedRule::Pass(passed)) => {
                let name = Shown(passed.as_bytes());
                write!(self.text, " -> name {name} of the host\n")?;
            }
            Some(AppliedRule::Deny) => self.text.push_str(" -> denied\n")?,
            Some(AppliedRule::Unsupported) => self.text.push_str(" -> unsupported\n")?,
            None => self.text.push_str(" -> calls fail\n")?,
        }
        if let Some(back) = &guest.back {
            self.push_host_name(back)?;
            self.push_round(guest.is_round)?;
        }
        Ok(())
    }

    /// Writes the line of what is asked about.
    fn push_question(&mut self, question: Question<'_>) -> Done {
        let (Question::Id(_, direction, _) | Question::Name(direction, _)) = question;
        let side = match direction {
            Direction::GuestToHost => "guest",
            Direction::HostToGuest => "host",
        };
        match question {
            Question::Id(kind, _, id) => {
                let one = one_of(kind);
                write!(self.text, "  {one} {id} of the {side}\n")
            }
            Question::Name(_, name) => {
                let name = Shown(name.as_bytes());
                write!(self.text, "  name {name} of the {side}\n")
            }
        }
    }

    /// Writes the line of a question, and the lines of its explanation.
    fn push_explanation(&mut self, question: Question<'_>, found: &Explanation<'_>) -> Done {
        self.push_question(question)?;
        match (found, question) {
            (Explanation::Id(ways), Question::Id(kind, direction, _)) => {
                self.push_ways(kind, direction, *ways)
            }
            (Explanation::GuestName(name), _) => self.push_guest_name(name),
            (Explanation::HostName(name), _) => self.push_host_name(name),
            (Explanation::NoRules, Question::Name(Direction::GuestToHost, name))
                if self.set.passes && !self.set.posix_acl && is_of_acls(name.as_bytes()) => {
                self.text.push_str("    ACLs are off: not supported\n")
            }
            (Explanation::NoRules, _) if self.set.passes => {
                self.text.push_str("    no rules: keeps its name\n")
            }
            (Explanation::NoRules, _) => self.text.push_str("    xattrs are off: calls fail\n"),
            _ => self.text.push_str("    not told\n"),
        }
    }
}

/// What is answered where questions are asked: for each guest the explanations. Nothing is found.
pub(crate) fn answer_questions(
    alloc: Global,
    questions: &[Question<'_>],
    guests: &[Guest<'_>],
) -> Made<Answer>
    ensures { IfOk result (ReportsExplained questions.now guests.now) }
{
    let all = explain_all(alloc, questions, guests)?;
    let outcome = outcome_of(&[], all.refusals.as_slice(), &[]);
    let text = explained_text(alloc, questions, guests, &all)?;
    let refusals = refusal_lines(alloc, all.refusals.as_slice())?;
    Ok(Answer {
        text,
        refusals,
        further: Vec::new(alloc),
        outcome,
    })
}

/// The text of explanations. The line of a guest has its number, the process of its daemon, if that runs
/// already, and that words start it in a user namespace.
fn explained_text<'x>(
    alloc: Global,
    questions: &[Question<'_>],
    guests: &'x [Guest<'_>],
    all: &'x Explained<'_>,
) -> Made<String> {
    let mut text = String::new(alloc);
    let sets = all.sets.iter().zip(all.guests.iter());
    for (place, (guest, (set, answers))) in guests.iter().zip(sets).enumerate() {
        let (number, note) = (place.saturating_add(1), namespace_note(guest));
        let mut page = Page {
            alloc,
            guest,
            set,
            text: String::new(alloc),
        };
        match set.process {
            Some(pid) => write!(page.text, "guest {number}, process {pid}{note}\n")?,
            None => write!(page.text, "guest {number}{note}\n")?,
        }
        for (question, it) in questions.iter().zip(answers.iter()) {
            page.push_explanation(*question, it)?;
        }
        text.push_str(page.text.as_str())?;
    }
    Ok(text)
}
