//! Code that is generic over a pair of id types, proved from the laws of their traits alone.
ghost use Rattle.std.specs.Prelude.{◌≡◌, ◌+◌, ◌-◌, ◌<◌, ◌≤◌, ◌↔◌, IsTrue};
ghost use Rattle.std.specs.Ordering.{nat_cmp};

use virtiofs_map::id_types::{GuestId, HostId, Id, IdNumber, IdOffset};

/// The id that is as far above `to` as `id` is above `from`.
pub fn moved<G, H>(id: G, from: G, to: H) -> H
where
    G: GuestId<HostType = H>,
    H: HostId<GuestType = G>,
    requires from { G.number from ≤ G.number id }
    requires fits { H.number to + (G.number id - G.number from) ≤ 4294967295 }
    ensures { H.number result ≡ H.number to + (G.number id - G.number from) }
{
    id.subtracts(from);
    let offset = id - from;
    id.difference(from, offset);
    to.adds(offset);
    let moved = to + offset;
    to.sum(offset, moved);
    moved
}

/// The guest id that is as far above `to` as the host id `id` is above `from`.
pub fn moved_back<G, H>(id: H, from: H, to: G) -> G
where
    G: GuestId<HostType = H>,
    H: HostId<GuestType = G>,
    requires from { H.number from ≤ H.number id }
    requires fits { G.number to + (H.number id - H.number from) ≤ 4294967295 }
    ensures { G.number result ≡ G.number to + (H.number id - H.number from) }
{
    id.subtracts(from);
    let offset = id - from;
    id.difference(from, offset);
    to.adds(offset);
    let moved = to + offset;
    to.sum(offset, moved);
    moved
}

/// The id with this number.
pub fn made<I: Id>(n: u32) -> I
    ensures { I.number result ≡ n }
{
    let inner = I::Inner::from_u32(n);
    let id = I::from(inner);
    I::keeps(inner, id);
    id
}

/// The number of an id.
pub fn number_of<I: Id>(id: I) -> u32
    ensures { result ≡ I.number id }
{
    id.into_inner().to_u32()
}

/// `from` after `into_inner` gives the same id.
pub fn made_again<I: Id>(id: I) -> I
    ensures { result ≡ id }
{
    let inner = id.into_inner();
    let again = I::from(inner);
    I::keeps(inner, again);
    again.identified(id);
    again
}

/// `into_inner` after `from` gives the same plain number.
pub fn taken_again<I: Id>(inner: I::Inner) -> I::Inner
    ensures { result ≡ inner }
{
    let id = I::from(inner);
    I::keeps(inner, id);
    let again = id.into_inner();
    again.identified(inner);
    again
}

/// `from_u32` after `to_u32` gives the same plain number.
pub fn counted_again<N: IdNumber>(n: N) -> N
    ensures { result ≡ n }
{
    let again = N::from_u32(n.to_u32());
    again.identified(n);
    again
}

/// Whether an id is in a range of ids, without its end.
pub fn is_within<I: Id>(id: I, start: I, end: I) -> bool
    ensures { IsTrue result ↔ ((I.number start ≤ I.number id) × (I.number id < I.number end)) }
{
    start.ordered(id);
    id.ordered(end);
    start <= id && id < end
}

/// Whether two ids are the same.
pub fn is_same<I: Id>(id: I, other: I) -> bool
    ensures number { IsTrue result ↔ (I.number id ≡ I.number other) }
    ensures order { I.cmp id other ≡ nat_cmp (I.number id) (I.number other) }
{
    id.ordered(other);
    id == other
}

/// Whether two ids, there and back with the same number, are the same.
pub fn is_mapped_back<G, H>(id: G) -> bool
where
    G: GuestId<HostType = H>,
    H: HostId<GuestType = G>,
    ensures { IsTrue result }
{
    let back = id.id_mapped().id_mapped();
    back.identified(id);
    back.ordered(id);
    back == id
}
