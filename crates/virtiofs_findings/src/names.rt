//! What is wrong with the names of extended attributes of a guest.

pub mod acl;
pub mod audits;
pub mod found;
