//! The kinds of findings: the word, the sentence and the recipe of each. JSON, `--accept` and the
//! sentences are made of these.

use crate::files::{HostFault, told};
use crate::words::comma_or_and;
use std::alloc::{AllocError, Global};
use virtiofs_findings::finding::Kind;
use virtiofs_options::fault::shown;

/// All kinds, in the order in which `--accept` names them.
static KINDS: [Kind; 17] = [
    Kind::Root,
    Kind::NotBack,
    Kind::Lacking,
    Kind::Kept,
    Kind::Range,
    Kind::OtherRanges,
    Kind::PosixAcl,
    Kind::AclUntranslated,
    Kind::NoStart,
    Kind::NoRule,
    Kind::NotListed,
    Kind::ListedElsewhere,
    Kind::IdleRule,
    Kind::AclRenamed,
    Kind::IdOfBoth,
    Kind::ShownToOther,
    Kind::NameOfBoth,
];

/// The word of a kind, which JSON and `--accept` have.
pub(crate) fn word_of(kind: Kind) -> &'static str {
    match kind {
        Kind::Root => "root",
        Kind::NotBack => "not_back",
        Kind::Lacking => "lacking",
        Kind::Kept => "kept",
        Kind::Range => "range",
        Kind::OtherRanges => "other_ranges",
        Kind::PosixAcl => "posix_acl",
        Kind::AclUntranslated => "acl_untranslated",
        Kind::NoStart => "no_start",
        Kind::NoRule => "no_rule",
        Kind::NotListed => "not_listed",
        Kind::ListedElsewhere => "listed_elsewhere",
        Kind::IdleRule => "idle_rule",
        Kind::AclRenamed => "acl_renamed",
        Kind::IdOfBoth => "id_of_both",
        Kind::ShownToOther => "shown_to_other",
        Kind::NameOfBoth => "name_of_both",
    }
}

/// The sentence of a kind. `{..}` stands for a field of the finding, which `fields.rt` has, and `{one|many}`
/// for words on a single id or on more.
pub(crate) fn sentence_of(kind: Kind) -> &'static str {
    match kind {
        Kind::Root =>
            "{users}{and}{groups} {acts|act} as root of the host: what {it creates|they create} is owned by root there",
        Kind::NotBack =>
            "{extent} {does|do} not round-trip: {one} {id} becomes {one} {host} {there}{as} and comes back as {one} {back}",
        Kind::Lacking =>
            "no file can be created as {extent}, or given to {it|them}: {one} {id} becomes {one} {host}, {why}",
        Kind::Kept =>
            "{extent} {keeps its|keep their} number without a specification: {one} {id} is {one} {host} of the host",
        Kind::Range => "{place} {what}{second}{where}",
        Kind::OtherRanges =>
            "the kernel shows other ranges than {option} gives, and those of the kernel count here",
        Kind::PosixAcl =>
            "--posix-acl does not go with --translate-uid or --translate-gid: the daemon does not start",
        Kind::AclUntranslated =>
            "-o posix_acl leaves the ids in ACLs as they are: an entry for user 1000 of the guest is one for user 1000 of the host",
        Kind::NoStart => "{why}: the daemon does not start",
        Kind::NoRule =>
            "some names have no rule: a call with such a name ends a worker of virtiofsd, and the guest hangs",
        Kind::NotListed => "the guest can set the name {least}, but lists do not show it",
        Kind::ListedElsewhere =>
            "lists show the host's attribute {least} under a name by which the guest does not reach it",
        Kind::IdleRule => "rule {rule} decides no name: earlier rules take all names that it fits",
        Kind::AclRenamed =>
            "with --posix-acl, '{name}' becomes '{becomes}', which Linux does not take for an ACL",
        Kind::IdOfBoth =>
            "guests {a} and {b} reach the same {one}s of the host, guest {a} by {extent}: {one} {id} of guest {a} and {one} {other} of guest {b} are both {one} {host}",
        Kind::ShownToOther =>
            "guest {a} can set the name {least}, and lists then show it to guest {b}",
        Kind::NameOfBoth =>
            "guest {a} reaches an attribute of the host by the name {least}, and guest {b} reaches it too",
    }
}

/// Own ids of the host for each guest.
const RANGE: &str = "A range of host ids";

/// A user of the host who is not root.
pub(crate) const KERNEL: &str = "A range that the host's kernel enforces";

/// Own ids and an own prefix for each of two guests.
const TWO: &str = "Two guests on one directory";

/// One prefix for all names.
const PREFIX: &str = "All xattr names under a prefix";

/// The recipes, in the order in which they are named.
pub(crate) static RECIPES: [&str; 4] = [RANGE, KERNEL, TWO, PREFIX];

/// The recipe of docs/ADMIN.md that mends a kind, if there is one.
pub(crate) fn recipe_of(kind: Kind) -> Option<&'static str> {
    match kind {
        Kind::Root | Kind::Kept => Some(RANGE),
        Kind::Range | Kind::NoStart => Some(KERNEL),
        Kind::IdOfBoth | Kind::ShownToOther | Kind::NameOfBoth => Some(TWO),
        Kind::NotListed | Kind::ListedElsewhere => Some(PREFIX),
        _ => None,
    }
}

/// Adds the kinds that values of `--accept` name. Of the first that names none, `place` says where it
/// stands.
pub(crate) fn read_kinds(
    alloc: Global,
    place: &str,
    texts: &[&str],
    kinds: &mut Vec<Kind>,
) -> Result<(), HostFault> {
    for text in texts {
        match KINDS.iter().find(|kind| word_of(**kind) == *text) {
            Some(kind) => kinds.push(*kind)?,
            None => return Err(told(no_kind(alloc, place, text))),
        }
    }
    Ok(())
}

/// The words of a text, in which `#` begins what is not read of a line.
pub(crate) fn words_in(alloc: Global, text: &str) -> Result<Vec<&str>, AllocError> {
    let mut words = Vec::new(alloc);
    for line in text.split('\n') {
        let front = line.split_once('#').map_or(line, |(front, _)| front);
        for word in front.split_ascii_whitespace() {
            words.push(word)?;
        }
    }
    Ok(words)
}

/// The sentence on a value of `--accept` that names no kind.
fn no_kind(alloc: Global, place: &str, text: &str) -> Result<String, AllocError> {
    let value = shown(alloc, text)?;
    let mut sentence = format!(in alloc; "{place}'--accept' has no value {value}: it has ")?;
    for (place, kind) in KINDS.iter().enumerate() {
        let (between, word) = (comma_or_and(place, KINDS.len()), word_of(*kind));
        write!(sentence, "{between}'{word}'")?;
    }
    sentence.push_str("\n")?;
    Ok(sentence)
}
