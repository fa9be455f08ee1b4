//! What the words before the first `--` ask for.
ghost use Rattle.std.specs.Prelude.{◌≡◌, ◌||◌, false, None, IsOk, IfOk, IfErr};
ghost use Rattle.virtiofs_options.specs.AskedOptions.{has_shown, has_value, not_shown, IsAsked, IsAskedWrongly, mixes, is_beside, told_last};
ghost use Rattle.virtiofs_options.specs.GuestOptions.{has_flag};

use crate::command::Part;
use crate::fault::Fault;
use crate::help::Telling;
use crate::options::Sets;

/// What is to be shown, and how.
#[derive(Clone, Copy)]
pub struct Asked {
    /// As JSON.
    pub json: bool,
    /// Not at all: the status alone tells.
    pub quiet: bool,
    /// As a drawing. Then it does not count whether JSON is asked for.
    pub svg: bool,
    /// Mended options alone. Then none of the others is asked for.
    pub mend: bool,
    /// What becomes of all ids.
    pub ids: bool,
    /// What becomes of some names.
    pub names: bool,
    /// Of the daemons that run.
    pub running: bool,
}

/// Whether an option that has no value is among the parts.
fn has_flag(parts: &[Part<'_>], option: &str) -> bool
    ensures { result ≡ has_flag option.now parts.now }
{
    parts.iter().any(|part| part.is_flag(option))
}

/// Whether a `--show` with this value is among the parts.
fn has_shown(parts: &[Part<'_>], what: &str) -> bool
    ensures { result ≡ has_shown what.now parts.now }
{
    parts
        .iter()
        .filter_map(|part| part.value_in("--show"))
        .any(|value| value == what)
}

/// The first value of a `--show` that names nothing to show.
fn not_shown<'a>(parts: &[Part<'a>]) -> Option<&'a str>
    ensures { result ≡ not_shown parts.now }
{
    parts
        .iter()
        .filter_map(|part| part.value_in("--show"))
        .find(|value| !(*value == "ids" || *value == "names"))
}

/// Whether an option that has a value is among the parts.
fn has_value(parts: &[Part<'_>], option: &str) -> bool
    ensures { result ≡ has_value option.now parts.now }
{
    parts.iter().any(|part| part.value_in(option).is_some())
}

/// What the parts before the first `--` ask for.
///
/// # Errors
///
/// `NotShown`: the first value of a `--show` that names nothing to show. `NotAlone`, where there is
/// no such value: `--mend` and another option that says what is written. `Beside`, where none of
/// these is so: `--explain` and another option that says what is written.
pub(crate) fn asked_of<'a>(parts: &[Part<'a>]) -> Result<Asked, Fault<'a>>
    ensures shown { IsOk result → not_shown parts.now ≡ None }
    ensures read { IfOk result (IsAsked parts.now) }
    ensures alone { IsOk result → mixes parts.now ≡ false }
    ensures beside { IsOk result → is_beside parts.now ≡ false }
    ensures refused { IfErr result (IsAskedWrongly parts.now) }
{
    if let Some(value) = not_shown(parts) {
        return Err(Fault::NotShown(value));
    }
    let asked = Asked {
        json: has_flag(parts, "--json"),
        quiet: has_flag(parts, "--quiet"),
        svg: has_flag(parts, "--svg"),
        mend: has_flag(parts, "--mend"),
        ids: has_shown(parts, "ids"),
        names: has_shown(parts, "names"),
        running: has_flag(parts, "--running"),
    };
    let more = asked.json || asked.quiet || asked.svg || asked.ids || asked.names;
    if asked.mend && more {
        return Err(Fault::NotAlone);
    }
    if has_value(parts, "--explain") && (asked.mend || more) {
        return Err(Fault::Beside);
    }
    Ok(asked)
}

/// What the program is to tell of itself, if the last part asks for that: nothing is read after it.
pub(crate) fn telling_of(parts: &[Part<'_>]) -> Option<Telling>
    ensures { result ≡ told_last parts.now }
{
    match parts.last()?.sets() {
        Sets::Tells(telling) => Some(telling),
        _ => None,
    }
}
