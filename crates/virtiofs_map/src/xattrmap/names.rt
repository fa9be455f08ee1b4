//! Names of extended attributes: bytes, none of them zero.

ghost use Rattle.std.specs.Prelude.{◌≢◌, All};

use std::alloc::{AllocError, Allocator, Global};
use std::marker::Model;

/// A borrowed name: any bytes but zero. It may be empty, and need not be UTF-8.
#[derive(Clone, Copy, PartialEq, Eq, Debug)]
pub struct XattrName<'a> {
    /// The bytes of the name, with no zero after them.
    pub bytes: &'a [u8],
    pub ghost no_zero: { All (λ byte. byte ≢ 0) bytes.now },
}

impl<'a> XattrName<'a> {
    ghost use Rattle.std.specs.Prelude.{◌≡◌, ◌↔◌, ◌++◌, IsNone, IfSome, IfOk, Contains};

    /// The name of these bytes: `None` exactly if one of them is zero.
    pub fn new(bytes: &'a [u8]) -> Option<XattrName<'a>>
        ensures none { IsNone result ↔ Contains bytes.now 0 }
        ensures name { IfSome result (λ name. name.bytes.now ≡ bytes.now) }
    {
        if bytes.contains(&0) {
            return None;
        }
        Some(XattrName { bytes })
    }

    /// The bytes of the name.
    pub fn as_bytes(self) -> &'a [u8]
        ensures { result.now ≡ self.entry.bytes.now }
    {
        self.bytes
    }

    /// The prepend, and then the name.
    pub(crate) fn prefixed_with<A: Allocator>(
        self,
        alloc: A,
        prepend: XattrName<'_>,
    ) -> Result<XattrNameBuf<A>, AllocError>
        ensures { IfOk result (λ name. name ≡ prepend.entry.bytes.now ++ self.entry.bytes.now) }
    {
        let mut bytes = Vec::with_capacity(alloc, prepend.bytes.len() + self.bytes.len())?;
        bytes.extend_from_slice(prepend.bytes)?;
        bytes.extend_from_slice(self.bytes)?;
        Ok(XattrNameBuf { bytes })
    }
}

/// A name with memory of its own. A contract sees it as its bytes.
#[derive(Drop)]
#[derive_where(Debug)]
pub struct XattrNameBuf<A: Allocator = Global> {
    bytes: Vec<u8, A>,
}

impl<A: Allocator> Model for XattrNameBuf<A> {
    ghost use Rattle.std.specs.Prelude.{◌≢◌, ℕ, List, All};

    ghost Value = { List ℕ };

    ghost view = { λ name. name.bytes.items };

    ghost invariant = { λ name. All (λ byte. byte ≢ 0) name.bytes.items };
}

impl<A: Allocator> XattrNameBuf<A> {
    ghost use Rattle.std.specs.Prelude.{◌≡◌, ◌≢◌, All, IfOk, OnOk};
    ghost use Rattle.virtiofs_map.specs.MapRule.{IsName};

    /// The name of these bytes, in memory of its own.
    pub(crate) fn copy_of(alloc: A, bytes: &[u8]) -> Result<XattrNameBuf<A>, AllocError>
        requires { All (λ byte. byte ≢ 0) bytes.now }
        ensures same { IfOk result (λ name. name ≡ bytes.now) }
        ensures is_name { OnOk result (IsName bytes.now) }
    {
        Ok(XattrNameBuf {
            bytes: Vec::from_slice(alloc, bytes)?,
        })
    }

    /// The name, borrowed.
    pub fn as_name(&self) -> XattrName<'_>
        ensures { result.bytes.now ≡ self.now }
    {
        XattrName {
            bytes: self.bytes.as_slice(),
        }
    }
}

impl<A: Allocator> PartialEq for XattrNameBuf<A> {
    ghost use Rattle.std.specs.Prelude.{◌≡◌, ◌↔◌, nat_eq, IsTrue};
    ghost use Rattle.std.specs.Cmp.Lexicographic.{pointwise, nat_list_eq_equiv};
    ghost use Rattle.std.specs.Cmp.{partial_equiv_from_equiv};

    ghost eq = { pointwise nat_eq };

    ghost laws = { partial_equiv_from_equiv nat_list_eq_equiv };

    fn eq(&self, other: &XattrNameBuf<A>) -> bool
        ensures value { result ≡ pointwise nat_eq self.now other.now }
        // Names are equal where their bytes are.
        ensures equal { IsTrue result ↔ (self.now ≡ other.now) }
    {
        self.bytes.as_slice() == other.bytes.as_slice()
    }
}

impl<A: Allocator> Eq for XattrNameBuf<A> {
    ghost use Rattle.std.specs.Cmp.Lexicographic.{nat_list_eq_equiv};

    ghost laws = { nat_list_eq_equiv };
}
