//! The options that the program and the daemon know: a table of each, which all else reads.

/// Whether an option has a value.
#[derive(Clone, Copy)]
pub(crate) enum Takes {
    /// It has none.
    Nothing,
    /// It has one, after `=` or as the next word.
    Value,
    /// It has one after `=` alone.
    AfterEquals,
}

/// Which values the daemon takes.
#[derive(Clone, Copy)]
pub(crate) enum Values {
    /// Any text, or one that is judged where it is used.
    Any,
    /// Any text without `=`.
    NoEquals,
    /// These texts.
    Of(&'static [&'static str]),
    /// These texts, in small letters or large.
    AnyCase(&'static [&'static str]),
    /// Digits, after a `+` or none.
    Digits,
    /// 1 to 36 bytes.
    Tag,
}

/// What is on or off.
#[derive(Clone, Copy)]
pub(crate) enum Switch {
    /// Access control lists.
    Acl,
    /// Extended attributes; off, they are on only where something else has them on.
    Xattr,
    /// Security labels.
    Label,
}

/// What an option sets, as far as this counts here.
#[derive(Clone, Copy)]
pub(crate) enum Sets {
    /// What is of no concern here.
    Other,
    /// How users are translated.
    TranslateUid,
    /// How groups are translated.
    TranslateGid,
    /// Which users the daemon's namespace has.
    UidMap,
    /// Which groups the daemon's namespace has.
    GidMap,
    /// The rules for names of attributes.
    Xattrmap,
    /// What is on, or off.
    Turns(Switch, bool),
    /// That access control lists are on, by the option of the newer form.
    AclFlag,
    /// How the daemon is kept apart from the host.
    Sandbox,
    /// What the options of the older form in its value say.
    Older,
    /// What the program or the daemon tells of itself; it reads no further.
    Tells(Telling),
    /// That the daemon says what it is able to do, and ends.
    Prints,
    /// That the socket is open already.
    Fd,
    /// Where the socket is made.
    Socket,
    /// Whose the socket is that is made.
    Group,
}

/// An option, or a part of `-o`.
#[derive(Clone, Copy)]
pub(crate) struct Known {
    /// The option; a part of `-o` that has a value with its `=`.
    pub(crate) name: &'static str,
    /// Whether it has a value.
    pub(crate) takes: Takes,
    /// What it sets.
    pub(crate) sets: Sets,
    /// Which values it takes.
    pub(crate) values: Values,
    /// What stands for its value in the help.
    pub(crate) shown: &'static str,
    /// What the help says of it.
    pub(crate) help: &'static str,
}

/// What words say that start another program.
#[derive(Clone, Copy)]
pub(crate) enum Says {
    /// Which user starts it: behind the option, or behind the program's word.
    User,
    /// That root does.
    Root,
    /// That another user does, unless root is named, but not which one.
    Another,
    /// Which group starts it: not the user's own, so that the user alone does not tell.
    Group,
    /// That it runs in a user namespace.
    Namespace,
}

/// A program that starts others, and what its words say.
#[derive(Clone, Copy)]
pub(crate) struct Start {
    /// How its word ends.
    pub(crate) program: &'static str,
    /// How the word begins that has it do so, and behind which it takes the user; empty where none is needed,
    /// and the user is a word of its own.
    pub(crate) option: &'static str,
    /// What these words say.
    pub(crate) says: Says,
}

use crate::help::Telling::{self, Help, Version};
use Sets::{
    AclFlag, Fd, GidMap, Group, Older, Other, Prints, Sandbox, Socket, Tells, TranslateGid,
    TranslateUid, Turns, UidMap, Xattrmap,
};
use Switch::{Acl, Label, Xattr};
use Values::{Any, AnyCase, Digits, NoEquals, Of, Tag};

/// What may stand in a part of the words.
#[derive(Clone, Copy)]
pub struct Options {
    /// The options.
    pub(crate) known: &'static [Known],
    /// Where the daemon's options may stand: the options that are the program's own.
    pub(crate) own: &'static [Known],
    /// The parts of `-o`.
    pub(crate) older: &'static [Known],
    /// The programs that start others.
    pub(crate) starters: &'static [Start],
    /// How root is named.
    pub(crate) roots: &'static [&'static str],
    /// Whether also words that are no options, and options that are not known.
    pub(crate) plain: bool,
}

/// What may stand before the first `--`.
pub const OWN: Options = Options {
    known: &OPTIONS,
    own: &[],
    older: &[],
    starters: &[],
    roots: &[],
    plain: false,
};

/// What may stand on a command line of the daemon.
pub const OF_DAEMON: Options = Options {
    known: &OPTIONS_OF_DAEMON,
    own: &OPTIONS,
    older: &OLDER_OPTIONS,
    starters: &STARTERS,
    roots: &ROOTS,
    plain: true,
};

/// A table, with a row for options that have the same: whether they have a value, what they set, which
/// values they take, and of the help what stands for the value, and what it says.
macro_rules! table {
    ($($($name:literal)+: $takes:ident, $sets:expr, $values:expr, $shown:literal, $help:literal;)*) => {
        [$($(Known {
            name: $name,
            takes: Takes::$takes,
            sets: $sets,
            values: $values,
            shown: $shown,
            help: $help,
        },)+)*]
    };
    ($($($name:literal)+: $takes:ident, $sets:expr, $values:expr;)*) => {
        table! { $($($name)+: $takes, $sets, $values, "", "";)* }
    };
}

/// The options of the program, and those of the daemon that may stand beside them; in the order in
/// which the help has those of which it says something.
const OPTIONS: [Known; 24] = table! {
    "--translate-uid": Value, TranslateUid, Any, "SPEC", "Translate users, as the daemon does";
    "--translate-gid": Value, TranslateGid, Any, "SPEC", "Translate groups, as the daemon does";
    "--uid-map": Value, UidMap, Any, "RANGE", "A range of users of the daemon's namespace";
    "--gid-map": Value, GidMap, Any, "RANGE", "A range of groups of the daemon's namespace";
    "--xattrmap": Value, Xattrmap, Any, "RULES", "Map names of attributes";
    "--posix-acl": Nothing, AclFlag, Any, "", "Access control lists are on";
    "--xattr": Nothing, Turns(Xattr, true), Any, "", "Extended attributes are on, also without rules";
    "--accept": Value, Other, Any, "KIND",
        "Findings of this kind, named as in JSON, do not count for the status";
    "--accept-from": Value, Other, Any, "FILE",
        "Accept also the kinds in FILE; # begins a comment there";
    "--explain": Value, Other, Any, "WHAT",
        "Say what becomes of one id or one name: user=1000, host-user=, group=, host-group=, name= or host-name=";
    "--pid": Value, Other, Any, "PID", "Audit this process of a daemon, as a further guest";
    "--running": Nothing, Other, Any, "",
        "Audit each virtiofsd that runs here; those of one directory together";
    "--run-as": Value, Other, Any, "USER[:GID]",
        "The user who starts the daemon; more than once: of each command line in turn";
    "--subuid": Value, Other, Any, "FILE", "Read FILE in place of /etc/subuid";
    "--subgid": Value, Other, Any, "FILE", "Read FILE in place of /etc/subgid";
    "--show": Value, Other, Of(&["ids", "names"]), "WHAT",
        "Show also what becomes of all ids, or of some names";
    "--json": Nothing, Other, Any, "", "Write JSON";
    "--quiet": Nothing, Other, Any, "", "Write nothing: the status tells";
    "--mend": Nothing, Other, Any, "", "Write mended options alone, each on a line";
    "--svg": Nothing, Other, Any, "", "Draw what becomes of all ids, as SVG";
    "--help" "-h": Nothing, Tells(Help), Any, "", "";
    "--version" "-V": Nothing, Tells(Version), Any, "", "";
};

/// The options of virtiofsd 1.13.2.
const OPTIONS_OF_DAEMON: [Known; 45] = table! {
    "--translate-uid": Value, TranslateUid, Any;
    "--translate-gid": Value, TranslateGid, Any;
    "--uid-map": Value, UidMap, Any;
    "--gid-map": Value, GidMap, Any;
    "--xattrmap": Value, Xattrmap, Any;
    "--posix-acl": Nothing, AclFlag, Any;
    "--sandbox": Value, Sandbox, AnyCase(&["namespace", "chroot", "none"]);
    "-o": Value, Older, Any;
    "--fd": Value, Fd, Any;
    "--socket" "--socket-path": Value, Socket, Any;
    "--socket-group": Value, Group, Any;
    "--help": Nothing, Tells(Help), Any;
    "--version": Nothing, Tells(Version), Any;
    "-h": Nothing, Tells(Help), Any;
    "-V": Nothing, Tells(Version), Any;
    "--print-capabilities": Nothing, Prints, Any;
    "--tag": Value, Other, Tag;
    "--thread-pool-size" "--rlimit-nofile": Value, Other, Digits;
    "--seccomp": Value, Other, Of(&["none", "kill", "log", "trap"]);
    "--inode-file-handles": AfterEquals, Other, Of(&["never", "fallback", "prefer", "mandatory"]);
    "--cache": Value, Other, AnyCase(&["never", "metadata", "auto", "always"]);
    "--log-level": Value, Other, AnyCase(&["error", "warn", "info", "debug", "trace", "off"]);
    "--migration-mode": Value, Other, Of(&["find-paths", "file-handles"]);
    "--migration-on-error": Value, Other, Of(&["abort", "guest-error"]);
    "--shared-dir" "--modcaps": Value, Other, Any;
    "--xattr": Nothing, Turns(Xattr, true), Any;
    "--announce-submounts" "--no-announce-submounts" "--allow-mmap" "--no-readdirplus" "--writeback"
    "--allow-direct-io" "--syslog" "--no-killpriv-v2" "--killpriv-v2": Nothing, Other, Any;
    "--security-label": Nothing, Turns(Label, true), Any;
    "--preserve-noatime" "--readonly" "--migration-verify-handles" "--migration-confirm-paths" "-d"
    "-f": Nothing, Other, Any;
};

/// The parts of `-o` of virtiofsd 1.13.2.
const OLDER_OPTIONS: [Known; 23] = table! {
    "xattrmap=": Value, Xattrmap, NoEquals;
    "posix_acl": Nothing, Turns(Acl, true), Any;
    "no_posix_acl": Nothing, Turns(Acl, false), Any;
    "sandbox=": Value, Sandbox, Of(&["namespace", "chroot"]);
    "source=": Value, Other, NoEquals;
    "modcaps=": Value, Other, NoEquals;
    "cache=": Value, Other, Of(&["none", "metadata", "auto", "always"]);
    "loglevel=": Value, Other, Of(&["err", "warn", "info", "debug"]);
    "xattr": Nothing, Turns(Xattr, true), Any;
    "no_xattr": Nothing, Turns(Xattr, false), Any;
    "readdirplus" "no_readdirplus" "writeback" "no_writeback" "allow_direct_io"
    "no_allow_direct_io" "announce_submounts" "killpriv_v2" "no_killpriv_v2": Nothing, Other, Any;
    "security_label": Nothing, Turns(Label, true), Any;
    "no_security_label": Nothing, Turns(Label, false), Any;
    "no_posix_lock" "no_flock": Nothing, Other, Any;
};

/// A table, with a row for words of a program that say the same.
macro_rules! starts {
    ($($program:literal: $($option:literal)+ => $says:ident,)*) => {
        [$($(Start { program: $program, option: $option, says: Says::$says },)+)*]
    };
}

/// The programs that start others. Of rows that speak of the same words the first counts.
const STARTERS: [Start; 55] = starts! {
    "podman": "unshare" "--userns" => Namespace,
    "buildah": "unshare" => Namespace,
    "lxc-usernsexec": "" => Namespace,
    "rootlesskit": "" => Namespace,
    "unshare": "--user" "--map-" "-U" "-r" "-mU" "-mr" => Namespace,
    "bwrap": "--unshare-user" "--unshare-all" => Another,
    "sudo": "-g" "--group" => Group,
    "sudo": "-u" "--user" "-nu" "-Hu" "-iu" => User,
    "doas": "-u" => User,
    "su": "-g" => Group,
    "su": "" => User,
    "runuser": "-g" "--group" => Group,
    "runuser": "-u" "--user" "" => User,
    "setpriv": "--reuid" "--euid" => Another,
    "chpst": "-u" => User,
    "setuidgid": "" => User,
    "gosu": "" => User,
    "su-exec": "" => User,
    "systemd-run": "--user" => Another,
    "systemd-run": "--gid" => Group,
    "systemd-run": "--uid" => User,
    "systemd-run": "Group=" => Group,
    "systemd-run": "User=" "--property=User=" "-pUser=" => User,
    "systemd-run": "DynamicUser=" => Another,
    "pkexec": "--user" => User,
    "run0": "-g" "--group" => Group,
    "run0": "-u" "--user" => User,
    "start-stop-daemon": "--chuid" "-c" => User,
    "chroot": "--userspec" => User,
    "sudo": "" => Root,
    "doas": "" => Root,
    "pkexec": "" => Root,
    "run0": "" => Root,
    "systemd-run": "" => Root,
};

/// How root is named.
const ROOTS: [&str; 4] = ["root", "0", "root:root", "0:0"];
