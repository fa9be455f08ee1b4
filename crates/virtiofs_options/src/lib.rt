//! Reads the words of `virtiofs_mapaudit`: its own options, and the options of each guest's virtiofsd.
//!
//! Joined short options become words of their own (`cluster`), words become parts (`command`),
//! and parts become what is asked for (`front`) and the options of a guest (`guest`, `older`). The
//! contracts say what counts: values in the order of the words, of `--xattrmap` the last, and older
//! options before the others. `read_words` puts all of it together (`words`), and `read_process` reads
//! the words of a process (`guests`). `running` says which process is a daemon's, and what it shares.
#![tactic(auto)]

mod cluster;
mod command;
pub mod fault;
pub mod front;
pub mod guest;
pub mod guests;
pub mod help;
mod line;
mod older;
pub mod options;
pub mod running;
pub mod shown;
pub mod starter;
mod strays;
pub mod unknown;
pub mod values;
mod whole;
pub mod words;
