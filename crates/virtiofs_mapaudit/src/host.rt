//! What the host tells of the processes and the users that the words name.

use crate::files::{HostFault, Read, content, named_content, told, unread, usual_content};
use crate::guests::HostProcess;
use crate::running::{Running, groups};
use crate::words::Made;
use std::alloc::Global;
use std::{fs, io};
use virtiofs_host::command_line::read_command_line;
use virtiofs_host::decimal::decimal;
use virtiofs_host::error::ReadError as TextError;
use virtiofs_host::runner::{
    NotShown, RunAs, Runner, Shown, group_of, read_run_as, running, starting,
};
use virtiofs_host::status::parent;
use virtiofs_host::subordinate::has_carriage_return;
use virtiofs_host::users::{find_user, read_names};
use virtiofs_options::fault::{ReadError, shown};
use virtiofs_options::front::Asked;
use virtiofs_options::guest::Guest;
use virtiofs_options::options::OF_DAEMON;
use virtiofs_options::running::{runs_daemon, shared_directory};
use virtiofs_options::starter::By;
use virtiofs_options::values::Values;

/// What the host tells.
#[derive(Drop)]
pub(crate) struct Host {
    /// Who starts the daemon of each command line, if it is known.
    pub(crate) starters: Vec<Option<Runner<Global>>>,
    /// The processes: all that are named, or of those that run the ones of each directory.
    pub(crate) shares: Vec<Share>,
}

/// Processes whose guests share a directory.
#[derive(Drop)]
pub(crate) struct Share {
    /// The directory; empty where the words of the daemon say none, and of processes that are named.
    pub(crate) directory: String,
    /// The processes.
    pub(crate) processes: Vec<HostProcess>,
    /// Why further ones cannot be read.
    pub(crate) unread: Vec<String>,
}

impl Share {
    /// None, of no directory.
    fn new(alloc: Global) -> Share {
        Share {
            directory: String::new(alloc),
            processes: Vec::new(alloc),
            unread: Vec::new(alloc),
        }
    }
}

/// A fault that is told by this sentence.
fn says(rt: &HostRuntime, sentence: &str) -> HostFault {
    told(String::from_str(rt.alloc(), sentence))
}

/// Whether a process is gone.
fn is_gone(rt: &HostRuntime, pid: u32) -> Made<bool> {
    let path = format!(in rt.alloc(); "/proc/{pid}")?;
    match fs::metadata(rt, path.as_str()) {
        Ok(_) => Ok(false),
        Err(error) => Ok(error.kind() == io::ErrorKind::NotFound),
    }
}

/// The content of a file of a process.
fn of_process(rt: &HostRuntime, pid: u32, name: &str) -> Read<Vec<u8>> {
    let path = format!(in rt.alloc(); "/proc/{pid}/{name}")?;
    match content(rt, path.as_str()) {
        // (what is read of one that ends meanwhile is refused in several ways)
        Err(HostFault::Told(sentence)) => match is_gone(rt, pid)? {
            true => Err(HostFault::Missing),
            false => Err(HostFault::Told(sentence)),
        },
        read => read,
    }
}

/// Why it is not said who runs a process.
fn not_shown(alloc: Global, pid: u32, fault: NotShown) -> HostFault {
    told(match fault {
        NotShown::Status => format!(in alloc; "/proc/{pid}/status does not say who runs it\n"),
        NotShown::UidMap => format!(in alloc; "/proc/{pid}/uid_map is not as Linux writes it\n"),
        NotShown::GidMap => format!(in alloc; "/proc/{pid}/gid_map is not as Linux writes it\n"),
        NotShown::OutOfMemory => return HostFault::OutOfMemory,
    })
}

/// The process of that number and command line, whose runner has that place among all runners.
fn process_of(rt: &HostRuntime, pid: u32, cmdline: Vec<u8>, place: usize) -> Read<HostProcess> {
    let status = of_process(rt, pid, "status")?;
    let uid_map = of_process(rt, pid, "uid_map")?;
    let gid_map = of_process(rt, pid, "gid_map")?;
    let shown = Shown {
        status: status.as_slice(),
        uid_map: uid_map.as_slice(),
        gid_map: gid_map.as_slice(),
    };
    match running(rt.alloc(), pid, shown, place) {
        Ok(runner) => Ok(HostProcess {
            pid,
            cmdline,
            runner,
        }),
        Err(fault) => Err(not_shown(rt.alloc(), pid, fault)),
    }
}

/// The content of a file of subordinate ids: the last that is named, or the usual one, which may be
/// missing.
fn subordinate(rt: &HostRuntime, files: &[&str], usual: &str) -> Read<Vec<u8>> {
    let (path, text) = match files.last() {
        Some(path) => (*path, named_content(rt, path)?),
        None => (usual, usual_content(rt, usual)?),
    };
    if has_carriage_return(text.as_slice()) {
        return Err(told(format!(in rt.alloc();
            "{path} has a carriage return: newuidmap passes over a line that ends in one\n"
        )));
    }
    Ok(text)
}

/// That the value of an option is wrong.
fn wrong_value(alloc: Global, text: &str, what: &str) -> HostFault {
    match shown(alloc, text) {
        Ok(word) => told(format!(in alloc; "{word} is no {what}\n")),
        Err(_) => HostFault::OutOfMemory,
    }
}

/// The user of that name or number, and the group, if a number of one is said.
fn run_as_of(rt: &HostRuntime, passwd: &[u8], text: &str) -> Made<Option<RunAs>> {
    if let Some(run_as) = read_run_as(text) {
        return Ok(Some(run_as));
    }
    let (name, gid) = match text.split_once(':') {
        Some((name, group)) => match decimal(group.as_bytes()) {
            Some(gid) => (name, Some(gid)),
            None => return Ok(None),
        },
        None => (text, None),
    };
    for named in read_names(rt.alloc(), passwd)?.as_slice() {
        if named.name == name.as_bytes() {
            return Ok(Some(RunAs { uid: named.id, gid }));
        }
    }
    Ok(None)
}

/// That user, as the runner of that place of the daemons that it starts; `None` where `/etc/passwd` has no
/// such user, or its group is not known.
fn starter(
    rt: &HostRuntime,
    values: &Values<'_>,
    text: &str,
    place: usize,
) -> Read<Option<Runner<Global>>> {
    let passwd = usual_content(rt, "/etc/passwd")?;
    let Some(run_as) = run_as_of(rt, passwd.as_slice(), text)? else {
        return Ok(None);
    };
    let (uid, user) = (run_as.uid, find_user(passwd.as_slice(), run_as.uid));
    let Some(gid) = group_of(run_as, user) else {
        return Ok(None);
    };
    let subuid = subordinate(rt, values.subuid.as_slice(), "/etc/subuid")?;
    let subgid = subordinate(rt, values.subgid.as_slice(), "/etc/subgid")?;
    let (subuid, subgid) = (subuid.as_slice(), subgid.as_slice());
    Ok(Some(starting(rt.alloc(), uid, gid, user, subuid, subgid, place)?))
}

/// Why `--run-as` names nobody.
fn no_starter(alloc: Global, text: &str) -> HostFault {
    let what = "user: --run-as takes UID, UID:GID, or a name that /etc/passwd has";
    match read_run_as(text) {
        Some(RunAs { uid, .. }) => told(format!(in alloc;
            "/etc/passwd has no user {uid}: say the group too, as --run-as {uid}:GID\n"
        )),
        None => wrong_value(alloc, text, what),
    }
}

/// Who starts the daemon of the command line at a place: as `--run-as` says, or else as its words do.
fn starter_at(
    rt: &HostRuntime,
    values: &Values<'_>,
    guest: &Guest<'_, Global>,
    place: usize,
) -> Read<Option<Runner<Global>>> {
    let said = values.run_as.as_slice();
    let place = if said.len() == 1 { 0 } else { place };
    if let Some(text) = said.get(place) {
        return match starter(rt, values, text, place)? {
            Some(runner) => Ok(Some(runner)),
            None => Err(no_starter(rt.alloc(), text)),
        };
    }
    let has_ranges = !guest.uid_map.is_empty() || !guest.gid_map.is_empty();
    match (guest.starter.user, guest.starter.by) {
        (Some(text), _) => starter(rt, values, text, 0),
        // (the programs that make a namespace make virtiofsd root there, from which it takes no ranges)
        (None, By::InNamespace) if has_ranges => starter(rt, values, "0:0", 0),
        _ => Ok(None),
    }
}

/// The process that a text names, whose runner has that place among all runners.
fn named_by(rt: &HostRuntime, text: &str, place: usize) -> Read<HostProcess> {
    let Some(pid) = decimal(text.as_bytes()) else {
        return Err(wrong_value(rt.alloc(), text, "number of a process"));
    };
    let read = match of_process(rt, pid, "cmdline") {
        Ok(cmdline) => process_of(rt, pid, cmdline, place),
        Err(fault) => Err(fault),
    };
    match read {
        Err(HostFault::Missing) => {
            Err(told(format!(in rt.alloc(); "there is no process {pid}\n")))
        }
        read => read,
    }
}

/// A process of a daemon.
#[derive(Drop)]
struct Daemon {
    /// Its number.
    pid: u32,
    /// The number of its parent.
    parent: u32,
    /// What the kernel shows as its command line.
    cmdline: Vec<u8>,
    /// The directory that it says it shares; empty where it says none.
    directory: String,
}

/// The directory that a daemon shares, without symbolic links: one that is not absolute by the folder in
/// which the process of that number runs. One that this host does not resolve stays as it is.
fn resolved(rt: &HostRuntime, pid: u32, directory: &str) -> Read<String> {
    let as_said = String::from_str(rt.alloc(), directory)?;
    let path = match directory.as_bytes().first() {
        None => return Ok(as_said),
        Some(b'/') => String::from_str(rt.alloc(), directory)?,
        Some(_) => format!(in rt.alloc(); "/proc/{pid}/cwd/{directory}")?,
    };
    match fs::canonicalize(rt, path.as_str()) {
        Ok(path) => Ok(path.into_string()),
        Err(error) if error.kind() == io::ErrorKind::OutOfMemory => Err(HostFault::OutOfMemory),
        Err(_) => Ok(as_said),
    }
}

/// The directory that a command line says.
fn directory_of(rt: &HostRuntime, cmdline: &[u8]) -> Read<String> {
    let words = match read_command_line(rt.alloc(), cmdline) {
        Ok(words) => words,
        Err(TextError::Wrong(_)) => return Ok(String::new(rt.alloc())),
        Err(TextError::OutOfMemory) => return Err(HostFault::OutOfMemory),
    };
    let directory = match shared_directory(rt.alloc(), OF_DAEMON, words.as_slice()) {
        Ok(directory) => directory.unwrap_or(""),
        Err(ReadError::Wrong(_)) => "",
        Err(ReadError::OutOfMemory) => return Err(HostFault::OutOfMemory),
    };
    Ok(String::from_str(rt.alloc(), directory)?)
}

/// The process of that number, if it is a daemon's.
fn daemon_of(rt: &HostRuntime, pid: u32) -> Read<Daemon> {
    let cmdline = of_process(rt, pid, "cmdline")?;
    if !runs_daemon(cmdline.as_slice()) {
        return Err(HostFault::Missing);
    }
    // (where it is not said, it is told when it is asked who runs the process)
    let parent = match of_process(rt, pid, "status") {
        Ok(status) => parent(status.as_slice()).unwrap_or(0),
        Err(HostFault::Told(_why)) => 0,
        Err(fault) => return Err(fault),
    };
    let directory = directory_of(rt, cmdline.as_slice())?;
    Ok(Daemon {
        pid,
        parent,
        cmdline,
        directory,
    })
}

/// That `/proc` is not listed.
fn unlisted(rt: &HostRuntime, error: &io::Error) -> HostFault {
    match unread(rt, "/proc", error) {
        HostFault::Missing => says(rt, "there is no folder /proc\n"),
        fault => fault,
    }
}

/// All processes of daemons.
fn daemons(rt: &HostRuntime) -> Read<Vec<Daemon>> {
    let mut all = Vec::new(rt.alloc());
    let entries = match fs::read_dir(rt, "/proc") {
        Ok(entries) => entries,
        Err(error) => return Err(unlisted(rt, &error)),
    };
    for entry in entries {
        let pid = match entry {
            Ok(entry) => decimal(entry.file_name().as_bytes()),
            Err(error) => return Err(unlisted(rt, &error)),
        };
        let Some(pid) = pid else { continue };
        match daemon_of(rt, pid) {
            Ok(it) => all.push(it)?,
            Err(HostFault::Missing) => {}
            Err(fault) => return Err(fault),
        }
    }
    Ok(all)
}

/// The process that was started of those of which one is the last child. The others run in another folder,
/// the one that is shared.
fn first_of(daemons: &[Daemon], last: &Daemon) -> u32 {
    let mut first = last;
    for _ in daemons {
        for it in daemons {
            if it.pid == first.parent && it.cmdline == last.cmdline {
                first = it;
            }
        }
    }
    first.pid
}

/// The processes of a group, which share a directory. One that is gone is passed over.
fn share_of(rt: &HostRuntime, group: &[Running<'_>]) -> Read<Share> {
    let mut share = Share::new(rt.alloc());
    for it in group {
        let cmdline = Vec::from_slice(rt.alloc(), it.cmdline)?;
        match process_of(rt, it.pid, cmdline, share.processes.len()) {
            Ok(process) => share.processes.push(process)?,
            Err(HostFault::Missing) => {}
            Err(HostFault::Told(why)) => share.unread.push(why)?,
            Err(HostFault::OutOfMemory) => return Err(HostFault::OutOfMemory),
        }
        share.directory = String::from_str(rt.alloc(), it.directory)?;
    }
    Ok(share)
}

/// The processes that serve guests, by the directory that they share.
fn shares_of(rt: &HostRuntime, daemons: &[Daemon]) -> Read<Vec<Share>> {
    let mut directories = Vec::new(rt.alloc());
    for it in daemons {
        let pid = first_of(daemons, it);
        directories.push(resolved(rt, pid, it.directory.as_str())?)?;
    }
    let mut all = Vec::new(rt.alloc());
    for (it, directory) in daemons.iter().zip(directories.iter()) {
        all.push(Running {
            pid: it.pid,
            parent: it.parent,
            cmdline: it.cmdline.as_slice(),
            directory: directory.as_str(),
        })?;
    }
    let mut shares = Vec::new(rt.alloc());
    for group in groups(rt.alloc(), all.as_slice())?.as_slice() {
        let share = share_of(rt, group.as_slice())?;
        if !(share.processes.is_empty() && share.unread.is_empty()) {
            shares.push(share)?;
        }
    }
    Ok(shares)
}

/// Who starts the daemons of command lines.
fn starters_of(
    rt: &HostRuntime,
    values: &Values<'_>,
    guests: &[Guest<'_, Global>],
) -> Read<Vec<Option<Runner<Global>>>> {
    let users = values.run_as.len();
    if users > 0 && guests.is_empty() {
        return Err(says(rt, "'--run-as' is for a command line, and there is none\n"));
    }
    if users > 1 && users != guests.len() {
        return Err(says(rt, "give '--run-as' once, or once for each command line\n"));
    }
    let mut starters = Vec::new(rt.alloc());
    for (place, guest) in guests.iter().enumerate() {
        starters.push(starter_at(rt, values, guest, place)?)?;
    }
    if starters.iter().all(|it| it.is_none())
        && !(values.subuid.is_empty() && values.subgid.is_empty())
    {
        let why =
            "'--subuid' and '--subgid' are for '--run-as', or for a user whom words before the daemon's name: there is neither\n";
        return Err(says(rt, why));
    }
    Ok(starters)
}

/// Asks the host about the users and the processes that the words name, or about the daemons that run,
/// where these are the guests of command lines.
pub(crate) fn ask(
    rt: &HostRuntime,
    asked: Asked,
    values: &Values<'_>,
    guests: &[Guest<'_, Global>],
) -> Read<Host> {
    let others = !guests.is_empty() || !values.pid.is_empty();
    if asked.running && (asked.svg || asked.mend || others) {
        let why = "'--running' goes with neither '--pid', '--svg', '--mend' nor a command line\n";
        return Err(says(rt, why));
    }
    let starters = starters_of(rt, values, guests)?;
    if asked.running {
        let shares = shares_of(rt, daemons(rt)?.as_slice())?;
        return Ok(Host { starters, shares });
    }
    let mut share = Share::new(rt.alloc());
    for text in values.pid.as_slice() {
        let place = starters.len().saturating_add(share.processes.len());
        share.processes.push(named_by(rt, text, place)?)?;
    }
    let mut shares = Vec::new(rt.alloc());
    shares.push(share)?;
    Ok(Host { starters, shares })
}
