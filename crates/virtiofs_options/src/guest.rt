//! The options of the daemon of one guest, as texts.
ghost use Rattle.std.specs.Prelude.{◌≡◌, ◌∷◌, [], OnOk};
ghost use Rattle.virtiofs_options.specs.GuestOptions.{Adds, HasNoOption, TakesIn, has_any, has_xattrs, sandbox_by, sandbox_of, text_in};

use crate::command::Part;
use crate::older::older_parts;
use crate::options::{Known, Options, Sets, Switch};
use crate::starter::{ROOT, Starter};
use std::alloc::{AllocError, Allocator};

/// How a daemon is kept apart from the host.
#[derive(Clone, Copy)]
pub enum Sandbox {
    /// By namespaces, of users too where it is not root.
    Namespace,
    /// By another root folder, which takes root.
    Chroot,
    /// In no way.
    Nothing,
}

/// How the daemon is kept apart, by the text that says so; what the daemon refuses counts as namespaces.
fn sandbox_by(text: &str) -> Sandbox
    ensures { result ≡ sandbox_by text.now }
{
    if text.eq_ignore_ascii_case("none") {
        return Sandbox::Nothing;
    }
    if text.eq_ignore_ascii_case("chroot") {
        return Sandbox::Chroot;
    }
    Sandbox::Namespace
}

/// The texts of the options that say how the daemon of a guest maps ids and names, each in the order
/// of the words.
#[derive(Drop)]
pub struct Guest<'a, A: Allocator> {
    /// The specifications for users.
    pub translate_uid: Vec<&'a str, A>,
    /// The specifications for groups.
    pub translate_gid: Vec<&'a str, A>,
    /// The ranges of users of the daemon's namespace.
    pub uid_map: Vec<&'a str, A>,
    /// The ranges of groups of the daemon's namespace.
    pub gid_map: Vec<&'a str, A>,
    /// The rules for names of attributes.
    pub xattrmap: Option<&'a str>,
    /// Whether access control lists are on.
    pub posix_acl: bool,
    /// Whether `--posix-acl` stands among the options: beside it the daemon refuses each translation, also
    /// where a later `-o no_posix_acl` has the lists off. Beside `-o posix_acl` alone it refuses none.
    pub acl_flag: bool,
    /// Whether extended attributes are asked for; `has_xattrs` says whether they are on.
    pub xattr: bool,
    /// Whether security labels are on.
    pub security_label: bool,
    /// How the daemon is kept apart from the host, if that is said; `kept_apart` reads it.
    pub sandbox: Option<&'a str>,
    /// Who starts the daemon, by the words before the daemon's.
    pub starter: Starter<'a>,
}

impl<A: Allocator> Guest<'_, A> {
    /// Whether extended attributes are on: they are asked for, or go with rules, with access control
    /// lists or with security labels.
    pub fn has_xattrs(&self) -> bool
        ensures { result ≡ has_xattrs self.now }
    {
        self.xattrmap.is_some() || self.posix_acl || self.security_label || self.xattr
    }
}

impl<'a, A: Allocator + Copy> Guest<'a, A> {
    /// A guest whose daemon has none of the options.
    pub(crate) fn new(alloc: A) -> Self
        ensures { HasNoOption result }
    {
        Guest {
            translate_uid: Vec::new(alloc),
            translate_gid: Vec::new(alloc),
            uid_map: Vec::new(alloc),
            gid_map: Vec::new(alloc),
            xattrmap: None,
            posix_acl: false,
            acl_flag: false,
            xattr: false,
            security_label: false,
            sandbox: None,
            starter: ROOT,
        }
    }

    /// How the daemon is kept apart from the host: by namespaces, where nothing else is said.
    pub fn kept_apart(&self) -> Sandbox
        ensures { result ≡ sandbox_of (text_in self.now.sandbox) }
    {
        match self.sandbox {
            Some(text) => sandbox_by(text),
            None => Sandbox::Namespace,
        }
    }

    /// Whether the daemon has one of the options.
    pub(crate) fn has_any(&self) -> bool
        ensures { result ≡ has_any self.now }
    {
        if self.xattrmap.is_some() || self.posix_acl || self.xattr {
            return true;
        }
        let users = self.translate_uid.len() + self.uid_map.len();
        let groups = self.translate_gid.len() + self.gid_map.len();
        users > 0 || groups > 0
    }

    /// Takes in an option of the daemon that has a value. Options that map nothing are passed over.
    fn take_value(&mut self, row: Known, value: &'a str) -> Result<(), AllocError>
        ensures { OnOk result (Adds self.old self.new (Part.Valued row value.entry ∷ [])) }
    {
        match row.sets {
            Sets::TranslateUid => self.translate_uid.push(value)?,
            Sets::TranslateGid => self.translate_gid.push(value)?,
            Sets::UidMap => self.uid_map.push(value)?,
            Sets::GidMap => self.gid_map.push(value)?,
            Sets::Xattrmap => self.xattrmap = Some(value),
            Sets::Sandbox => self.sandbox = Some(value),
            _ => {}
        }
        Ok(())
    }

    /// Takes in an option of the daemon that has no value.
    fn take_flag(&mut self, row: Known)
        ensures { Adds self.old self.new (Part.Flag row ∷ []) }
    {
        match row.sets {
            Sets::AclFlag => {
                self.posix_acl = true;
                self.acl_flag = true;
            }
            Sets::Turns(Switch::Acl, on) => self.posix_acl = on,
            Sets::Turns(Switch::Xattr, on) => self.xattr = on,
            Sets::Turns(Switch::Label, on) => self.security_label = on,
            _ => {}
        }
    }

    /// Takes in a part of a command line of the daemon.
    fn take_part(&mut self, part: Part<'a>) -> Result<(), AllocError>
        ensures { OnOk result (Adds self.old self.new (part.entry ∷ [])) }
    {
        match part {
            Part::Plain(_) | Part::Stray(_) => Ok(()),
            Part::Flag(row) => {
                self.take_flag(row);
                Ok(())
            }
            Part::Valued(row, value) => self.take_value(row, value),
        }
    }

    /// Takes in parts of a command line of the daemon. Of options that a daemon has once, the last counts,
    /// as `virtiofsd` takes them. Words that are no options, as the path of the program, are passed over.
    fn take_all(&mut self, parts: &[Part<'a>]) -> Result<(), AllocError>
        ensures { OnOk result (Adds self.old self.new parts.now) }
    {
        for part in parts {
            self.take_part(*part)?;
        }
        Ok(())
    }

    /// Takes in the parts of a command line of the daemon. Options of the older form count more than the
    /// others, wherever they stand. Also says who starts the daemon.
    pub(crate) fn take_parts(
        &mut self,
        alloc: A,
        options: Options,
        parts: &[Part<'a>],
        starter: Starter<'a>,
    ) -> Result<(), AllocError>
        ensures takes { OnOk result (TakesIn options self.old self.new parts.now) }
        ensures starter { OnOk result (self.new.starter ≡ starter.entry) }
    {
        let older = older_parts(alloc, options, parts)?;
        self.take_all(parts)?;
        self.take_all(older.as_slice())?;
        self.starter = starter;
        Ok(())
    }
}
