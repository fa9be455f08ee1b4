//! The id and attribute name maps of `virtiofs_map`, for C.
//!
//! `include/virtiofs_map.h` of the repository declares what is exported here, and says what each
//! call answers and what its caller guarantees. A map is plain numbers in the caller's memory,
//! which are written once and then only read.
#![tactic(auto)]

ghost use Rattle.std.specs.Prelude.{◌≡◌};

mod arrays;
mod buffer;
mod bytes;
mod codes;
mod fault;
mod ids;
mod names;
mod sentences;
mod texts;
mod values;
mod words;

#[unsafe(no_mangle)]
pub extern "C" fn virtiofs_map_version() -> u32
    ensures { result ≡ 3 }
{
    3
}
