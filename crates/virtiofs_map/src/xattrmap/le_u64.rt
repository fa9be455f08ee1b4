//! Numbers of eight bytes, the lowest byte first.

ghost use Rattle.std.specs.Prelude.{◌≡◌, ◌+◌, ◌++◌, ◌≤◌, length, OnOk};
ghost use Rattle.virtiofs_map.specs.LeU64Parts.{le_u64_at, le_u64_bytes};

use std::alloc::{AllocError, Allocator};

/// The number whose bytes begin there.
#[tactic(auto, unfolding(crate::specs::LeU64Parts::le_u64_at))]
#[inline(always)]
pub(crate) fn le_u64_at(bytes: &[u8], from: usize) -> u64
    requires { from + 8 ≤ length bytes.now }
    ensures { result ≡ le_u64_at bytes.now from }
{
    let (numbers, _) = bytes[from..].as_chunks::<8>();
    u64::from_le_bytes(numbers[0])
}

/// Appends the bytes of the number.
#[tactic(auto, unfolding(crate::specs::LeU64Parts::le_u64_bytes))]
pub(crate) fn push_le_u64<A: Allocator>(
    bytes: &mut Vec<u8, A>,
    number: u64,
) -> Result<(), AllocError>
    ensures { OnOk result (bytes.new.items ≡ bytes.old.items ++ le_u64_bytes number) }
{
    bytes.extend_from_slice(&number.to_le_bytes())
}
