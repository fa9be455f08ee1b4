//! Reads what a Linux host tells of a daemon's process and of the user who runs it.
//!
//! Each reader takes the whole content of a file, as bytes, and says what it holds: the ranges of a
//! namespace ([`id_map`]), a command line ([`command_line`]), the ids of a process ([`status`]), a
//! user ([`users`]) and the ids that a user may give to a namespace ([`subordinate`]). What of
//! this counts for a daemon is its [`runner`].
//! [`allowed`] says whether `newuidmap` and `newgidmap` set up given ranges for a user. Nothing
//! here reads a file.
#![tactic(auto)]

pub mod allowed;
pub mod command_line;
mod cut;
pub mod decimal;
pub mod error;
pub mod id_map;
mod lines;
pub mod runner;
pub mod status;
pub mod subordinate;
pub mod users;
