//! Numbers at places of a file. Each read is total: a byte past the file's end counts as 0, so that
//! a field may be read before the rule that says that it is there.
ghost use Rattle.std.specs.Prelude.{◌≡◌, ◌≤◌, ◌<◌, ◌+◌, ◌^◌, drop};
ghost use Rattle.byteorder.specs.Endian.{little_number};
ghost use Rattle.fw_types.specs.Layout.{uint16_at, uint32_at, uint64_at};

use byteorder::{ByteOrder, LittleEndian};

/// The bytes from a place on; none if the place is past the end.
pub fn bytes_from(bytes: &[u8], place: usize) -> &[u8]
    ensures { result.now ≡ drop place bytes.now }
{
    if place < bytes.len() {
        &bytes[place..]
    } else {
        &[]
    }
}

/// The number in the first `size` bytes, the lowest first. Bytes that are not there count as 0.
fn number(bytes: &[u8], size: usize) -> u64
    requires { size ≤ 8 }
    ensures value { result ≡ little_number size bytes.now }
    ensures fits { result < 256 ^ size }
{
    let present = size.min(bytes.len());
    if present == 0 {
        return 0;
    }
    LittleEndian::read_uint(bytes, present)
}

/// The number in the 2 bytes at a place.
#[tactic(auto, unfolding(fw_types::specs::Layout::uint16_at))]
pub fn u16_at(bytes: &[u8], place: usize) -> u16
    ensures { result ≡ uint16_at place bytes.now }
{
    number(bytes_from(bytes, place), 2) as u16
}

/// The number in the 4 bytes at a place.
#[tactic(auto, unfolding(fw_types::specs::Layout::uint32_at))]
pub fn u32_at(bytes: &[u8], place: usize) -> u32
    ensures { result ≡ uint32_at place bytes.now }
{
    number(bytes_from(bytes, place), 4) as u32
}

/// The number in the 8 bytes at a place.
#[tactic(auto, unfolding(fw_types::specs::Layout::uint64_at))]
pub fn u64_at(bytes: &[u8], place: usize) -> u64
    ensures { result ≡ uint64_at place bytes.now }
{
    number(bytes_from(bytes, place), 8)
}
