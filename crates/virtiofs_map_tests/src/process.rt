//! What a Linux host tells of a daemon's process and its user, as its files have it.

mod files;
mod namespaces;
mod refused;
