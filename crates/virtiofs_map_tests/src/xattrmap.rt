//! Maps of attribute names: their texts, names of the guest, and lists of the host.

mod client;
mod server;
mod texts;
