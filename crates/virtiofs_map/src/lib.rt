//! Which ids and which extended attribute names cross between a guest and its host.
//!
//! A daemon that shares a directory of a host with a guest machine asks this crate two things: what
//! a user or group id of one side is on the other ([`soft_idmap`], made of the texts of [`cmdline`];
//! [`idmap`] reads the ranges of a user namespace), and what becomes of the name of an extended
//! attribute ([`xattrmap`]). [`audit`] answers for all names at once. Every reader reads numbers by
//! [`text::number`]. The crate `virtiofs_acl` converts the ids inside an attribute's value.
#![tactic(auto)]

pub mod audit;
pub mod cmdline;
pub mod id_types;
pub mod idmap;
pub mod soft_idmap;
mod steps;
pub mod text;
pub mod xattrmap;

pub use steps::Steps;
