//! Code that calls the library `virtiofs_map` as a daemon does, with contracts that are proved.
//!
//! Each contract here is proved from the contracts of the library's public calls and from its laws
//! alone. So a caller can derive such facts.
//!
//! - [`users`], [`names`] and [`values`] have calls of a daemon: on maps of ids, on maps of attribute
//!   names, and on values with ids.
//! - [`pairs`] has code for any pair of id types, and [`projects`] is such a pair.
//! - [`texts`] has printed forms, with contracts of what they say.
//!
//! The tests of this code are in the crate `virtiofs_map_tests`. No program that is shipped uses it.
#![tactic(auto)]

pub mod names;
pub mod pairs;
pub mod projects;
pub mod texts;
pub mod users;
pub mod values;
