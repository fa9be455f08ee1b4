//! What is wrong with words, and the sentence on it.
ghost use Rattle.std.specs.Prelude.{◌≡◌};
ghost use Rattle.virtiofs_options.specs.declared.fault.ReadError.TheVariants.{OutOfMemory, Wrong};

use crate::command::key_of;
use crate::options::{Known, OF_DAEMON, OWN};
use crate::shown::Shown;
use crate::unknown::{MOST_SHOWN, front_of};
use std::alloc::{AllocError, AllocFailed, Global};
use strsim::levenshtein;

/// What is wrong with words.
#[derive(Clone, Copy)]
pub enum Fault<'a> {
    /// The word is not known before the first `--`.
    Unknown(&'a str),
    /// The option is not known, and is a near miss of one for ids or names.
    Miss(&'a str),
    /// The option lacks its value.
    Missing(&'a str),
    /// The option has no value, and here it has one.
    Unwanted(&'a str),
    /// `--show` has a value that names nothing to show.
    NotShown(&'a str),
    /// `--mend` stands beside an option that also says what is written.
    NotAlone,
    /// The word holds a command line, or the value the options after it.
    Whole(&'a str),
    /// The part of `-o` is not known, and is a near miss of one for names.
    OlderUnknown(&'a str),
    /// The daemon refuses the value of the option.
    Refused(&'static str, &'a str),
    /// The daemon refuses the value in the part of `-o`.
    OlderRefused(&'a str),
    /// The word is no option, where the daemon takes none but options.
    StrayWord(&'a str),
    /// There are options for the socket that do not go together.
    AtOdds,
    /// The word belongs to a command line of the daemon, and stands before the first `--`.
    BeforeDashes(&'a str),
    /// The option is the program's own, and stands after the first `--`.
    AfterDashes(&'a str),
    /// There is nothing to audit for the guest of this number, counted from 1.
    Nothing(usize),
    /// `--explain` stands beside an option that also says what is written.
    Beside,
}

/// Why words are not read.
pub enum ReadError<'a> {
    /// A request for memory was refused.
    OutOfMemory,
    /// The words are wrong.
    Wrong(Fault<'a>),
}

impl From<AllocError> for ReadError<'_> {
    ghost from_gives = { λ _ error. error ≡ OutOfMemory };

    fn from(_error: AllocError) -> Self {
        ReadError::OutOfMemory
    }
}

impl<T: Drop> From<AllocFailed<T>> for ReadError<'_> {
    ghost from_gives = { λ _ error. error ≡ OutOfMemory };

    fn from(_error: AllocFailed<T>) -> Self {
        ReadError::OutOfMemory
    }
}

impl<'a> From<Fault<'a>> for ReadError<'a> {
    ghost from_gives = { λ fault error. error ≡ Wrong fault };

    fn from(fault: Fault<'a>) -> Self {
        ReadError::Wrong(fault)
    }
}

/// A word as a sentence has it: the first characters, escaped, between quotes, and two dots where it
/// has more.
///
/// # Errors
///
/// `AllocError`: a request for memory was refused.
pub fn shown(alloc: Global, word: &str) -> Result<String, AllocError> {
    let front = front_of(alloc, word)?;
    let mut text = String::new(alloc);
    let front = Shown(front.as_bytes());
    write!(text, "'{front}'")?;
    if MOST_SHOWN < word.chars().count() {
        text.push_str("..")?;
    }
    Ok(text)
}

/// The first of the names with the fewest edits between it and the word: characters put in, taken
/// out or changed. The time is the product of the characters of the word and of all names.
fn nearest(alloc: Global, word: &str, known: &[Known]) -> Result<&'static str, AllocError> {
    let mut best = "--help";
    let mut fewest = usize::MAX;
    for it in known {
        let edits = levenshtein(alloc, word, it.name)?;
        if edits < fewest {
            best = it.name;
            fewest = edits;
        }
    }
    Ok(best)
}

/// The sentence on what is not known. The first characters of `name`, as many as a sentence quotes,
/// are compared with what is known.
fn unknown_text(
    alloc: Global,
    what: &str,
    text: &str,
    name: &str,
    known: &[Known],
) -> Result<String, AllocError> {
    let front = front_of(alloc, name)?;
    let nearest = nearest(alloc, front.as_str(), known)?;
    let text = shown(alloc, text)?;
    format!(in alloc; "unknown {what} {text}: the nearest that is known is '{nearest}'\n")
}

/// The sentence on a word, which ends so.
fn word_text(alloc: Global, begin: &str, word: &str, end: &str) -> Result<String, AllocError> {
    let word = shown(alloc, word)?;
    format!(in alloc; "{begin}{word}{end}\n")
}

/// The sentence on a value that the daemon refuses.
fn refused_text(alloc: Global, option: &str, value: &str) -> Result<String, AllocError> {
    let value = shown(alloc, value)?;
    format!(in alloc; "virtiofsd refuses the value {value} of '{option}'\n")
}

/// How the sentence on a value of `--show` ends.
const NOT_SHOWN: &str = ": it has 'ids' and 'names'";

/// How the sentence on a word that is a command line ends.
const WHOLE: &str = " is more than one word of a command line: remove the quotes around it";

/// How the sentence on a word of a daemon before the first `--` ends.
const BEFORE_DASHES: &str = ": put '--' before the command line of virtiofsd";

/// How the sentence on an option of the program after the first `--` ends.
const AFTER_DASHES: &str = " is an option of virtiofs_mapaudit: put it before the first '--'";

/// How the sentence on a word that is no option ends.
const STRAY: &str = ": virtiofsd takes no words but options and their values";

/// The sentence on options of a daemon that do not go together.
const AT_ODDS: &str =
    "'--fd' goes with neither '--socket', '--socket-path' nor '--socket-group', nor does '--socket-group' with '--print-capabilities'\n";

/// The sentence on what does not go with `--mend`.
const NOT_ALONE: &str = "'--mend' goes with neither '--json', '--quiet', '--svg' nor '--show'\n";

/// The sentence on what does not go with `--explain`.
const BESIDE: &str =
    "'--explain' goes with neither '--json', '--quiet', '--svg', '--mend' nor '--show'\n";

/// The sentence on what is wrong with words.
///
/// # Errors
///
/// `AllocError`: a request for memory was refused.
pub fn fault_text(alloc: Global, fault: Fault<'_>) -> Result<String, AllocError> {
    match fault {
        Fault::Unknown(word) => unknown_text(alloc, "word", word, word, OWN.known),
        Fault::Miss(word) => unknown_text(alloc, "word", word, word, OF_DAEMON.known),
        Fault::OlderUnknown(text) => {
            unknown_text(alloc, "part of '-o'", text, key_of(text), OF_DAEMON.older)
        }
        Fault::Missing(option) => word_text(alloc, "", option, " lacks its value"),
        Fault::Unwanted(option) => word_text(alloc, "", option, " has no value"),
        Fault::AfterDashes(option) => word_text(alloc, "", option, AFTER_DASHES),
        Fault::NotShown(value) => word_text(alloc, "'--show' has no value ", value, NOT_SHOWN),
        Fault::Whole(word) => word_text(alloc, "", word, WHOLE),
        Fault::BeforeDashes(word) => word_text(alloc, "unknown word ", word, BEFORE_DASHES),
        Fault::StrayWord(word) => word_text(alloc, "unknown word ", word, STRAY),
        Fault::Refused(option, value) => refused_text(alloc, option, value),
        Fault::OlderRefused(text) => refused_text(alloc, "-o", text),
        Fault::AtOdds => String::from_str(alloc, AT_ODDS),
        Fault::NotAlone => String::from_str(alloc, NOT_ALONE),
        Fault::Beside => String::from_str(alloc, BESIDE),
        Fault::Nothing(guest) => format!(in alloc;
            "guest {guest}: nothing to audit: no word is 'virtiofsd', and none is an option for ids or names\n"
        ),
    }
}
