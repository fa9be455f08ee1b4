//! Tests of the libraries, by their public calls alone: they say what no contract says.
//!
//! Modules that are named as one of the library have known inputs with their answers, and printed
//! texts. They also run the crate `virtiofs_map_callers`, which calls the library as a daemon does.
//! `refused` refuses each request for memory of each call in turn. `without_memory` has the calls
//! that take none. `hostile` has large texts and names, many rules and many specifications.
//! `process` is about the crate `virtiofs_host`, and `output` about `virtiofs_output`: that a flush
//! which fails is told. No contract can say it, since std's do not say when a flush fails.
#![tactic(auto)]

#[cfg(test)]
mod acl;
#[cfg(test)]
mod audit;
#[cfg(test)]
mod cmdline;
#[cfg(test)]
mod common;
#[cfg(test)]
mod hostile;
#[cfg(test)]
mod id_audit;
#[cfg(test)]
mod id_types;
#[cfg(test)]
mod idmap;
#[cfg(test)]
mod output;
#[cfg(test)]
mod process;
#[cfg(test)]
mod refused;
#[cfg(test)]
mod soft_idmap;
#[cfg(test)]
mod without_memory;
#[cfg(test)]
mod xattrmap;
