//! Numbers in the bytes of a value, the lowest byte first.
ghost use Rattle.std.specs.Prelude.{◌≡◌, ◌⊎◌, ℕ, ◌+◌, ◌<◌, ◌≤◌, length, slice_index};
ghost use Rattle.virtiofs_acl.specs.LittleEndian.{two_bytes, four_bytes};

/// The number that two bytes make.
pub(crate) fn read_two(value: &[u8], place: usize) -> u16
    requires { place + 2 ≤ length value.now }
    ensures { result ≡ two_bytes value.now place }
{
    u16::from(value[place]) + 256 * u16::from(value[place + 1])
}

/// The number that four bytes make.
pub(crate) fn read_four(value: &[u8], place: usize) -> u32
    requires { place + 4 ≤ length value.now }
    ensures { result ≡ four_bytes value.now place }
{
    u32::from(read_two(value, place)) + 65536 * u32::from(read_two(value, place + 2))
}

/// Writes a number into two bytes.
fn write_two(value: &mut [u8], place: usize, n: u16)
    requires { place + 2 ≤ length value.old }
    ensures number { two_bytes value.new place ≡ n }
    ensures rest { (other : ℕ) → (other < place) ⊎ (place + 2 ≤ other)
        → slice_index value.new other ≡ slice_index value.old other }
{
    value[place] = (n % 256) as u8;
    value[place + 1] = (n / 256) as u8;
}

/// Writes a number into four bytes.
pub(crate) fn write_four(value: &mut [u8], place: usize, n: u32)
    requires { place + 4 ≤ length value.old }
    ensures number { four_bytes value.new place ≡ n }
    ensures rest { (other : ℕ) → (other < place) ⊎ (place + 4 ≤ other)
        → slice_index value.new other ≡ slice_index value.old other }
{
    write_two(value, place, (n % 65536) as u16);
    write_two(value, place + 2, (n / 65536) as u16);
}
