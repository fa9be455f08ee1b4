//! What both programs share: how a text is written whole, how bytes are escaped in it, and with
//! which status a program ends.
#![tactic(auto)]

pub mod emit;
pub mod outcome;
pub mod tally;
pub mod written;
