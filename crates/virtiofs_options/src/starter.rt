//! Who starts the daemon, by the words before the daemon's.
ghost use Rattle.std.specs.List.{ends_with, list_any};
ghost use Rattle.std.specs.Prelude.{◌≡◌, ◌<◌, length, nat_eq, option_map, IfSome};
ghost use Rattle.virtiofs_options.specs.GuestOptions.{text_in};
ghost use Rattle.virtiofs_options.specs.Starters.{bare, is_mark, is_name, mark_of, names_root, next_name, plain_starter, rest_of, row_of, speaks, starter_by, user_behind, user_by, IsStarter};

use crate::cluster::stripped;
use crate::options::{Options, Says, Start};

/// Who starts a daemon.
#[derive(Clone, Copy)]
pub enum By {
    /// Root, or nobody of whom words tell.
    Root,
    /// Another user.
    Another,
    /// Whoever it is, in a user namespace that is set up for it.
    InNamespace,
}

/// Who starts a daemon, as far as words tell.
#[derive(Clone, Copy)]
pub struct Starter<'a> {
    /// Who it is.
    pub by: By,
    /// The name or the number of the user, if words tell it.
    pub user: Option<&'a str>,
}

/// Root.
pub(crate) const ROOT: Starter<'static> = Starter {
    by: By::Root,
    user: None,
};

/// Whether a user is named behind a word: behind the option, or, where the program takes none, behind the
/// program's word.
fn is_mark(row: Start, word: &str) -> bool
    ensures { result ≡ is_mark row word.now }
{
    let (word, option) = (word.as_bytes(), row.option.as_bytes());
    if option.is_empty() {
        return word.ends_with(row.program.as_bytes());
    }
    word.starts_with(option)
}

/// Where that word stands.
fn mark_of(row: Start, words: &[&str]) -> Option<usize>
    ensures first { result ≡ mark_of row words.now }
    ensures within { IfSome result (λ place. place < length words.now) }
{
    words.iter().position(|word| is_mark(row, word))
}

/// Whether one of the words is a program's.
fn has_program(program: &str, words: &[&str]) -> bool
    ensures { result ≡ list_any (λ word. ends_with nat_eq word.now program.now) words.now }
{
    words
        .iter()
        .any(|word| word.as_bytes().ends_with(program.as_bytes()))
}

/// Whether words have the program of a row, and its option.
fn speaks(row: Start, words: &[&str]) -> bool
    ensures { result ≡ speaks row words.now }
{
    has_program(row.program, words) && mark_of(row, words).is_some()
}

/// The first row that speaks of words.
fn row_of(options: Options, words: &[&str]) -> Option<Start>
    ensures { result ≡ row_of options words.now }
{
    options
        .starters
        .iter()
        .find(|row| speaks(**row, words))
        .copied()
}

/// Whether a word may be a name: it is neither an option nor a path.
fn is_name(word: &str) -> bool
    ensures { result ≡ is_name word.now }
{
    let word = word.as_bytes();
    !word.starts_with(b"-") && !word.starts_with(b"/")
}

/// A text without a `=`, and then without a `#`, with which it begins.
fn bare(text: &str) -> &str
    ensures { result.now ≡ bare text.now }
{
    let text = stripped("=", text).unwrap_or(text);
    stripped("#", text).unwrap_or(text)
}

/// What stands in a word behind an option, if there is one.
fn rest_of<'a>(option: &str, word: &'a str) -> &'a str
    ensures { result.now ≡ rest_of option.now word.now }
{
    if option.is_empty() {
        return "";
    }
    bare(stripped(option, word).unwrap_or(""))
}

/// The first of the words that may be a name.
fn next_name<'a>(words: &[&'a str]) -> Option<&'a str>
    ensures { option_map (λ it. it.now) result ≡ next_name words.now }
{
    match words.iter().find(|word| is_name(word)) {
        Some(name) => Some(bare(name)),
        None => None,
    }
}

/// The user behind the first of the words: the rest of it, or else the next that may be a name.
fn user_behind<'a>(option: &str, words: &[&'a str]) -> Option<&'a str>
    ensures { option_map (λ it. it.now) result ≡ user_behind option.now words.now }
{
    let [mark, after @ ..] = words else {
        return None;
    };
    let rest = rest_of(option, mark);
    if rest.is_empty() {
        return next_name(after);
    }
    Some(rest)
}

/// The user whom words name by a row.
fn user_by<'a>(row: Start, words: &[&'a str]) -> Option<&'a str>
    ensures { text_in result ≡ user_by row words.now }
{
    match mark_of(row, words) {
        Some(place) => user_behind(row.option, &words[place..]),
        None => None,
    }
}

/// Whether a text names root.
fn names_root(options: Options, text: &str) -> bool
    ensures { result ≡ names_root options text.now }
{
    options.roots.iter().any(|root| *root == text)
}

/// Who starts a daemon by what a row says, and the user whom words name by it. Who needs no option for another
/// user starts it as root where nobody is named.
fn starter_by<'a>(options: Options, row: Start, user: Option<&'a str>) -> Starter<'a>
    ensures { plain_starter result ≡ starter_by options row (text_in user.entry) }
{
    let is_root = match user {
        Some(user) => names_root(options, user),
        None => row.option.is_empty(),
    };
    let by = if is_root { By::Root } else { By::Another };
    let (by, user) = match row.says {
        Says::Namespace => (By::InNamespace, None),
        Says::Group => (By::Another, None),
        Says::Root => (By::Root, Some("root")),
        Says::Another => (by, None),
        Says::User => (by, user),
    };
    Starter { by, user }
}

/// Who starts the daemon before whose word these words stand: the first row that speaks of them says it;
/// where none does, root.
pub(crate) fn starter_of<'a>(options: Options, words: &[&'a str]) -> Starter<'a>
    ensures { IsStarter options words.now result }
{
    match row_of(options, words) {
        Some(row) => starter_by(options, row, user_by(row, words)),
        None => ROOT,
    }
}
