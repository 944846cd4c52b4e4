//! Records of the standard as bytes: a field is put at its offset, numbers lowest byte first.
ghost use Rattle.std.specs.Prelude.{◌≡◌, ◌+◌, ◌≤◌, length};
ghost use Rattle.byteorder.specs.Endian.{little_bytes};
ghost use Rattle.fw_types.specs.Layout.{put};

use byteorder::{ByteOrder, LittleEndian};

/// Puts bytes at an offset. The others stay.
#[tactic(auto, unfolding(crate::specs::Layout::put))]
pub fn put_bytes(bytes: &mut [u8], offset: usize, field: &[u8])
    requires { offset + length field.now ≤ length bytes.old }
    ensures { bytes.new ≡ put offset field.now bytes.old }
{
    bytes[offset..offset + field.len()].copy_from_slice(field);
}

/// Puts a number into the 2 bytes at an offset. The others stay.
#[tactic(auto, unfolding(crate::specs::Layout::put), using(crate::proofs::LayoutLemmas::put_in_tail))]
pub fn put_u16(bytes: &mut [u8], offset: usize, value: u16)
    requires { offset + 2 ≤ length bytes.old }
    ensures { bytes.new ≡ put offset (little_bytes 2 value) bytes.old }
{
    LittleEndian::write_u16(&mut bytes[offset..], value);
}

/// Puts a number into the 4 bytes at an offset. The others stay.
#[tactic(auto, unfolding(crate::specs::Layout::put), using(crate::proofs::LayoutLemmas::put_in_tail))]
pub fn put_u32(bytes: &mut [u8], offset: usize, value: u32)
    requires { offset + 4 ≤ length bytes.old }
    ensures { bytes.new ≡ put offset (little_bytes 4 value) bytes.old }
{
    LittleEndian::write_u32(&mut bytes[offset..], value);
}

/// Puts a number into the 8 bytes at an offset. The others stay.
#[tactic(auto, unfolding(crate::specs::Layout::put), using(crate::proofs::LayoutLemmas::put_in_tail))]
pub fn put_u64(bytes: &mut [u8], offset: usize, value: u64)
    requires { offset + 8 ≤ length bytes.old }
    ensures { bytes.new ≡ put offset (little_bytes 8 value) bytes.old }
{
    LittleEndian::write_u64(&mut bytes[offset..], value);
}
