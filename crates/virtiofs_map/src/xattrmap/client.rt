//! What becomes of a name that the guest uses.

ghost use Rattle.std.specs.Prelude.{◌≡◌, ◌++◌, IfOk, IfErr};
ghost use Rattle.virtiofs_map.specs.LookupAnswers.{meaning, of_no_rule, IsOwned};
ghost use Rattle.virtiofs_map.specs.Names.{Passes};

use crate::xattrmap::XattrMap;
use crate::xattrmap::errors::{Error, ErrorKind};
use crate::xattrmap::image::Decision;
use crate::xattrmap::names::{XattrName, XattrNameBuf};
use crate::xattrmap::scopes::Side;
use std::alloc::{Allocator, Global};

/// A name as it goes to the host. Two values are equal if their bytes are equal, no matter which of
/// them is borrowed or owned.
#[derive(Drop)]
#[derive_where(Debug)]
pub enum PassedName<'a, A: Allocator = Global> {
    /// The guest's name, unchanged.
    Borrowed(XattrName<'a>),
    /// The guest's name, with a prepend before it.
    Owned(XattrNameBuf<A>),
}

/// What a rule makes of a name that the guest uses.
#[derive(Drop)]
#[derive_where(PartialEq, Eq, Debug)]
pub enum AppliedRule<'a, A: Allocator = Global> {
    /// The name goes to the host as this one.
    Pass(PassedName<'a, A>),
    /// The guest may not use the name.
    Deny,
    /// The name is not supported.
    Unsupported,
}

impl<A: Allocator> PassedName<'_, A> {
    ghost use Rattle.virtiofs_map.specs.LookupAnswers.{passed_bytes};

    /// The bytes of the name, with no zero after them.
    pub fn as_bytes(&self) -> &[u8]
        ensures { result.now ≡ passed_bytes self.now }
    {
        match self {
            PassedName::Borrowed(name) => name.as_bytes(),
            PassedName::Owned(name) => name.as_name().as_bytes(),
        }
    }
}

impl<A: Allocator> PartialEq for PassedName<'_, A> {
    ghost use Rattle.std.specs.Prelude.{◌≡◌, ◌↔◌, nat_eq, IsTrue};
    ghost use Rattle.std.specs.Cmp.Lexicographic.{pointwise, nat_list_eq_equiv};
    ghost use Rattle.std.specs.Cmp.{on_per, partial_equiv_from_equiv};
    ghost use Rattle.virtiofs_map.specs.LookupAnswers.{passed_bytes};

    ghost eq = { λ one other. pointwise nat_eq (passed_bytes one) (passed_bytes other) };

    ghost laws = { on_per passed_bytes (partial_equiv_from_equiv nat_list_eq_equiv) };

    fn eq(&self, other: &Self) -> bool
        ensures value { result ≡
            pointwise nat_eq (passed_bytes self.now) (passed_bytes other.now) }
        // Names are equal where their bytes are.
        ensures equal { IsTrue result ↔ (passed_bytes self.now ≡ passed_bytes other.now) }
    {
        self.as_bytes() == other.as_bytes()
    }
}

impl<A: Allocator> Eq for PassedName<'_, A> {
    ghost use Rattle.std.specs.Cmp.Lexicographic.{nat_list_eq_equiv};
    ghost use Rattle.std.specs.Cmp.{on_equiv};
    ghost use Rattle.virtiofs_map.specs.LookupAnswers.{passed_bytes};

    ghost laws = { on_equiv passed_bytes nat_list_eq_equiv };
}

impl<A: Allocator + Copy> XattrMap<A> {
    ghost use Rattle.std.specs.Prelude.{◌↔◌, ◌⊎◌};
    ghost use Rattle.virtiofs_map.specs.LookupAnswers.{IsDecidedBy};
    ghost use Rattle.virtiofs_map.specs.Names.{client_answer, IsUnterminated};
    ghost use Rattle.virtiofs_map.specs.Rule.{Okay, Prefix};

    /// Finds out what becomes of a name that the guest uses. The first rule decides that acts on
    /// the client's side and whose key the name starts with: the name passes unchanged, passes with
    /// the rule's prepend before it, is denied, or is unsupported.
    ///
    /// If the name passes unchanged, the result borrows the name that was passed in; it does not
    /// borrow the map. Only a name that passes with a prepend takes memory, from `alloc`.
    ///
    /// # Errors
    ///
    /// No error blames a rule. The rule is looked up before memory is allocated, so the error for a
    /// name that no rule decides is never `OutOfMemory`.
    ///
    /// - `UnterminatedMapping`: returned if and only if no rule decides the name.
    /// - `OutOfMemory`: an allocation failed. This is returned only if the name passes with a
    ///   prepend.
    pub fn map_client_xattr<'a>(
        &self,
        alloc: A,
        name: XattrName<'a>,
    ) -> Result<AppliedRule<'a, A>, Error<A>>
        ensures answer { IfOk result (λ applied.
            meaning applied ≡ client_answer self.now name.entry.bytes.now) }
        ensures unterminated { (result ≡ Err (of_no_rule ErrorKind.UnterminatedMapping))
            ↔ (client_answer self.now name.entry.bytes.now ≡ IsUnterminated) }

        // A name that passes as it is, is the very name that was handed in.
        ensures okay { IsDecidedBy Okay self.now name.entry.bytes.now
            → result ≡ Ok (AppliedRule.Pass (PassedName.Borrowed name.entry)) }
        ensures prefix { IsDecidedBy Prefix self.now name.entry.bytes.now → IfOk result IsOwned }

        ensures errors { IfErr result (λ error.
            (error ≡ of_no_rule ErrorKind.UnterminatedMapping)
            ⊎ (error ≡ of_no_rule ErrorKind.OutOfMemory)) }
        // Out of memory is answered only where a name passes with something before it.
        ensures memory { result ≡ Err (of_no_rule ErrorKind.OutOfMemory)
            → IsDecidedBy Prefix self.now name.entry.bytes.now }
    {
        let (decision, _) = self.as_ref().decide(Side::Client, name.bytes);
        match decision {
            Decision::Undecided | Decision::NoMap => {
                Err(Error::from(ErrorKind::UnterminatedMapping))
            }
            Decision::Okay => Ok(AppliedRule::Pass(PassedName::Borrowed(name))),
            Decision::Prefix(bytes) => with_prepend(alloc, XattrName { bytes }, name),
            Decision::Bad => Ok(AppliedRule::Deny),
            Decision::Unsupported => Ok(AppliedRule::Unsupported),
        }
    }
}

/// The name, with a prepend before it.
fn with_prepend<'a, A: Allocator>(
    alloc: A,
    prepend: XattrName<'_>,
    name: XattrName<'a>,
) -> Result<AppliedRule<'a, A>, Error<A>>
    ensures passes { IfOk result (λ applied.
        meaning applied ≡ Passes (prepend.entry.bytes.now ++ name.entry.bytes.now)) }
    ensures owned { IfOk result IsOwned }
    ensures memory { IfErr result (λ error. error ≡ of_no_rule ErrorKind.OutOfMemory) }
{
    let name = name.prefixed_with(alloc, prepend)?;
    Ok(AppliedRule::Pass(PassedName::Owned(name)))
}
