//! What an audit of ids answers.

/// The answer of an audit of ids.
#[derive(Clone, Copy, Debug, PartialEq, Eq)]
pub enum IdAudit<T> {
    /// What was asked holds of all ids.
    Yes,
    /// It fails for the id that is told, and for no lesser one.
    No(T),
}

/// An id of the guest that does not come back.
#[derive(Clone, Copy, Debug, PartialEq, Eq)]
pub struct Astray<Guest, Host> {
    /// The id.
    pub guest: Guest,
    /// What it becomes on the host.
    pub host: Host,
    /// What that becomes in the guest.
    pub back: Guest,
}

/// An id of the guest that shares its id of the host with another one.
#[derive(Clone, Copy, Debug, PartialEq, Eq)]
pub struct Shared<Guest, Host> {
    /// The id.
    pub guest: Guest,
    /// The least one with which it shares.
    pub other: Guest,
    /// The id of the host that both become.
    pub host: Host,
}
