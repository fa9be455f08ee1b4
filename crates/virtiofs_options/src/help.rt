//! The help and the version, written by `clap`.

use crate::options::{Known, OWN, Takes, Values};
use clap::{Arg, ArgAction, Command};
use std::alloc::{AllocError, Global};

/// The program, with no options yet.
fn program<'a>(alloc: Global) -> Command<'a> {
    Command::new(alloc, "virtiofs_mapaudit")
        .version("3.2.3")
        .about(
            "Says what the options of a virtiofsd do to ids and names, and what is wrong with them.",
        )
        .after_help(
            "After -- comes a command line of the daemon, and after a further -- that of a further guest of the same directory. virtiofs_mapaudit(1) says more.",
        )
        .override_usage("virtiofs_mapaudit [OPTIONS] [-- COMMAND LINE OF THE DAEMON]..")
}

/// An option of the table, by its name without the `--`.
fn argument<'a>(alloc: Global, row: Known, name: &'a str) -> Arg<'a> {
    let argument: Arg<'a> = Arg::new(alloc, name).long(name).help(row.help);
    match (row.takes, row.values) {
        (Takes::Nothing, _) => argument.action(ArgAction::SetTrue),
        (_, Values::Of(texts)) => argument
            .action(ArgAction::Append)
            .value_name(row.shown)
            .value_parser(texts),
        _ => argument.action(ArgAction::Append).value_name(row.shown),
    }
}

/// The same with the option of a row, if the table says something of it.
fn with_row<'a>(
    alloc: Global,
    command: Command<'a>,
    row: Known,
) -> Result<Command<'a>, AllocError> {
    match row.name.strip_prefix("--") {
        Some(name) if !row.help.is_empty() => command.arg(argument(alloc, row, name)),
        _ => Ok(command),
    }
}

/// The program with the options of the table.
fn command<'a>(alloc: Global) -> Result<Command<'a>, AllocError> {
    let mut command = program(alloc);
    for row in OWN.known {
        command = with_row(alloc, command, *row)?;
    }
    Ok(command)
}

/// What the program says of itself, on demand.
#[derive(Clone, Copy)]
pub enum Telling {
    /// The help.
    Help,
    /// The version.
    Version,
}

/// The text of it.
///
/// # Errors
///
/// `AllocError`: a request for memory was refused.
pub fn told(alloc: Global, telling: Telling) -> Result<String, AllocError> {
    let mut command = command(alloc)?;
    match telling {
        Telling::Help => command.render_help(),
        Telling::Version => command.render_version(),
    }
}
