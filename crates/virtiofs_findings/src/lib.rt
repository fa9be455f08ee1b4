//! What the options of virtiofsd set up for guests, what is wrong with it, and which other options mend
//! that: as values. What writes them stands above.
//!
//! - [`setup`] reads the texts of each [`guest`]: maps of ids, the ranges of the
//!   namespace that the daemon runs in ([`ids`]), and rules for names. Of each option that is refused it
//!   tells the first fault ([`refusal`]). [`alike`] says which guests have the same options.
//! - [`audit`] goes through all guests, by themselves and by two. What it finds is a [`finding`]: about
//!   whom, of which kind, and by what it is told ([`ids`], [`names`]).
//! - [`explain`] says what decides about one id or one name.
//! - [`advice`] makes other options, and tries whether less is found with them.
#![tactic(auto)]

pub mod advice;
pub mod alike;
pub mod audit;
pub mod explain;
pub mod finding;
pub mod guest;
pub mod ids;
pub mod names;
mod pairs;
pub mod refusal;
mod report;
pub mod setup;
