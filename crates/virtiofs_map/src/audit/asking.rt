//! The one question about all names, of maps that are lent, whatever holds their bytes.

ghost use Rattle.std.specs.Prelude.{List, IfOk};
ghost use Rattle.virtiofs_map.specs.Audit.{AnswersLeast, HasFault, Within};
ghost use Rattle.virtiofs_map.specs.NamesImage.{IsMapOf};
ghost use Rattle.virtiofs_map.specs.Rule.{MappingRule};

use crate::audit::answer::Audit;
use crate::audit::candidates::least_bad_name;
use crate::audit::question::Question;
use crate::steps::Steps;
use crate::xattrmap::{XattrMapRef, XattrName};
use std::alloc::{AllocError, Allocator};

/// What may be wrong with a name.
#[derive(Clone, Copy)]
pub enum NameFault {
    /// A name of the guest passes, and is not listed back: [`audit`](crate::audit::audit).
    Lost,
    /// A name of the host is listed under a name that does not pass as it:
    /// [`audit_listed`](crate::audit::audit_listed).
    Stray,
    /// A name of the first guest passes as one that the second map does not hide:
    /// [`keeps_apart`](crate::audit::keeps_apart).
    Seen,
    /// A name of the first guest passes as one that the second guest reaches too:
    /// [`shares_no_name`](crate::audit::shares_no_name).
    Shared,
}

/// Whether no name that begins with these bytes has the fault; else `No` has the least. The fault is
/// one under the first map (`r`), where another guest has the second (`q`); for `Lost` and `Stray`
/// the second makes no difference.
///
/// The least name of all is often of no use to a person: under `:ok:client:::` it is the byte 1. The
/// least that begins with `user.` is `user.`.
///
/// # Errors
///
/// `AllocError`: an allocation failed.
pub fn ask<A: Allocator + Copy>(
    alloc: A,
    fault: NameFault,
    r: XattrMapRef<'_>,
    q: XattrMapRef<'_>,
    beginning: XattrName<'_>,
) -> Result<Audit<A>, AllocError>
    ensures { (rules others : List MappingRule) → IsMapOf rules r.entry
        → IsMapOf others q.entry
        → IfOk result (AnswersLeast
        (Within beginning.entry.bytes.now (HasFault fault rules others))) }
{
    let question = Question {
        fault,
        map: r,
        other: q,
        beginning,
    };
    least_bad_name(alloc, &question, &mut Steps::new())
}
