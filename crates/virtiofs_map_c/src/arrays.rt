//! Specifications of ids, as C hands them over.
ghost use Rattle.std.specs.Prelude.{◌≡◌, Some, IfOk, IfErr};
ghost use Rattle.virtiofs_map_c.specs.Arrays.{said, spec_as_c, HasNoTarget, AreSaid, HasArrayFault};
ghost use Rattle.virtiofs_map_c.specs.Faults.{TellsFault, IsArrayTold, code_of};

use crate::codes::SPECIFICATION;
use crate::fault::Fault;
use std::alloc::Global;
use virtiofs_map::cmdline;

/// C's `struct virtiofs_spec`.
#[repr(C)]
#[derive(Clone, Copy)]
pub struct Spec {
    pub kind: u32,
    pub first: u32,
    pub to: u32,
    pub count: u32,
}

/// The specification that a C struct stands for; `None` where there is no such kind.
pub fn read(spec: &Spec) -> Option<cmdline::IdMap>
    ensures { result ≡ said spec.now }
{
    match spec.kind {
        0 => Some(cmdline::IdMap::Guest {
            from_guest: spec.first,
            to_host: spec.to,
            count: spec.count,
        }),
        1 => Some(cmdline::IdMap::Host {
            from_host: spec.first,
            to_guest: spec.to,
            count: spec.count,
        }),
        2 => Some(cmdline::IdMap::SquashGuest {
            from_guest: spec.first,
            to_host: spec.to,
            count: spec.count,
        }),
        3 => Some(cmdline::IdMap::SquashHost {
            from_host: spec.first,
            to_guest: spec.to,
            count: spec.count,
        }),
        4 => Some(cmdline::IdMap::Bidirectional {
            guest: spec.first,
            host: spec.to,
            count: spec.count,
        }),
        5 => Some(cmdline::IdMap::ForbidGuest {
            from_guest: spec.first,
            count: spec.count,
        }),
        _ => None,
    }
}

/// The specifications of an array, in its order. Stops at the first one of an unknown kind.
pub fn read_all(alloc: Global, specs: &[Spec]) -> Result<Vec<cmdline::IdMap>, Fault>
    ensures read { IfOk result (λ list. AreSaid specs.now list.items) }
    ensures refused { IfErr result (λ told.
        TellsFault (HasArrayFault specs.now) (IsArrayTold (code_of told) told)) }
{
    let mut list = Vec::new(alloc);
    for (place, spec) in specs.iter().enumerate() {
        match read(spec) {
            Some(spec) => list.push(spec)?,
            None => return Err(Fault::at(3, SPECIFICATION, place)),
        }
    }
    Ok(list)
}

/// A specification as C's struct.
pub fn spec_of(spec: cmdline::IdMap) -> Spec
    ensures same { result ≡ spec_as_c spec }
    ensures said { said result ≡ Some spec }
    ensures no_target { HasNoTarget result }
{
    let (kind, first, to, count) = match spec {
        cmdline::IdMap::Guest {
            from_guest,
            to_host,
            count,
        } => (0, from_guest, to_host, count),
        cmdline::IdMap::Host {
            from_host,
            to_guest,
            count,
        } => (1, from_host, to_guest, count),
        cmdline::IdMap::SquashGuest {
            from_guest,
            to_host,
            count,
        } => { (2, from_guest, to_host, count) }
        cmdline::IdMap::SquashHost {
            from_host,
            to_guest,
            count,
        } => { (3, from_host, to_guest, count) }
        cmdline::IdMap::Bidirectional { guest, host, count } => (4, guest, host, count),
        cmdline::IdMap::ForbidGuest { from_guest, count } => (5, from_guest, 0, count),
    };
    Spec {
        kind,
        first,
        to,
        count,
    }
}
