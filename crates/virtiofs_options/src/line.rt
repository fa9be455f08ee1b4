//! Where the command line of a daemon begins and ends among words.
ghost use Rattle.std.specs.List.{list_any};
ghost use Rattle.std.specs.Prelude.{◌≡◌, ◌<◌, ◌≤◌, length, drop, option_map, IfSome};
ghost use Rattle.virtiofs_options.specs.Lines.{first_end, line_of, after_line, is_daemon, concerns, is_counted, opens_with_option, has_options, first_daemon, daemon_place, beginning};

use crate::command::{is_option, key_of};
use crate::options::{Options, Sets, Switch};

/// Where the first `--` stands, if there is one.
pub(crate) fn first_end(words: &[&str]) -> Option<usize>
    ensures first { result ≡ first_end words.now }
    ensures within { IfSome result (λ place. place < length words.now) }
{
    words.iter().position(|word| *word == "--")
}

/// The words before the first `--`.
pub(crate) fn line_of<'w, 'a>(words: &'w [&'a str]) -> &'w [&'a str]
    ensures { result.now ≡ line_of words.now }
{
    match first_end(words) {
        Some(end) => &words[..end],
        None => words,
    }
}

/// The words after the first `--`, if there is one.
pub(crate) fn after_line<'w, 'a>(words: &'w [&'a str]) -> Option<&'w [&'a str]>
    ensures after { option_map (λ rest. rest.now) result ≡ after_line words.now }
    ensures shorter { IfSome result (λ rest. length rest.now < length words.now) }
{
    let end = first_end(words)?;
    Some(&words[end + 1..])
}

/// The words from a place on.
#[tactic(auto, using(std::proofs::lemmas::List::take_rest))]
pub(crate) fn tail_of<'w, 'a>(words: &'w [&'a str], start: usize) -> &'w [&'a str]
    requires { start ≤ length words.now }
    ensures { result.now ≡ drop start words.now }
{
    &words[start..]
}

/// Whether a word is the daemon's: its last part is `virtiofsd`, and it is no option.
pub(crate) fn is_daemon(word: &[u8]) -> bool
    ensures { result ≡ is_daemon word.now }
{
    let name = b"virtiofsd".as_slice();
    !word.starts_with(b"-") && (word == name || word.ends_with(b"/virtiofsd"))
}

/// Whether what is set concerns ids or names.
pub(crate) fn concerns(sets: Sets) -> bool
    ensures { result ≡ concerns sets }
{
    match sets {
        Sets::TranslateUid | Sets::TranslateGid | Sets::UidMap | Sets::GidMap => true,
        Sets::Xattrmap | Sets::AclFlag | Sets::Turns(Switch::Acl, _) => true,
        _ => false,
    }
}

/// Whether a word is an option for ids or names, alone or with `=` and a value.
fn is_counted(options: Options, word: &str) -> bool
    ensures { result ≡ is_counted options word.now }
{
    let key = key_of(word);
    options
        .known
        .iter()
        .any(|it| concerns(it.sets) && it.name == key)
}

/// Whether the first of the words is an option, or `--`.
fn opens_with_option(words: &[&str]) -> bool
    ensures { result ≡ opens_with_option words.now }
{
    match words {
        [] => false,
        [word, ..] => is_option(word),
    }
}

/// Whether one of the words is an option for ids or names.
fn has_counted(options: Options, words: &[&str]) -> bool
    ensures { result ≡ list_any (λ word. is_counted options word.now) words.now }
{
    words.iter().any(|word| is_counted(options, word))
}

/// Whether the first of the words is an option, or one of them is an option for ids or names.
fn has_options(options: Options, words: &[&str]) -> bool
    ensures { result ≡ has_options options words.now }
{
    opens_with_option(words) || has_counted(options, words)
}

/// Where the first daemon's word stands among the words.
pub(crate) fn first_daemon(words: &[&str]) -> Option<usize>
    ensures first { result ≡ first_daemon words.now }
    ensures within { IfSome result (λ place. place < length words.now) }
{
    words.iter().position(|word| is_daemon(word.as_bytes()))
}

/// Where the first daemon's word stands, if what stands before it may be passed over.
fn daemon_place(options: Options, words: &[&str]) -> Option<usize>
    ensures first { result ≡ daemon_place options words.now }
    ensures within { IfSome result (λ place. place < length words.now) }
{
    let place = first_daemon(words)?;
    if has_options(options, &words[..place]) {
        return None;
    }
    Some(place)
}

/// Where a command line begins among the words: at the daemon's word, or else with the words, if they
/// have options. What stands before the daemon's word, as `podman unshare --`, is passed over. `None`
/// where no command line of the daemon begins.
pub(crate) fn beginning(options: Options, words: &[&str]) -> Option<usize>
    ensures place { result ≡ beginning options words.now }
    ensures within { IfSome result (λ place. place ≤ length words.now) }
{
    if let Some(place) = daemon_place(options, words) {
        return Some(place);
    }
    if has_options(options, line_of(words)) {
        return Some(0);
    }
    None
}
