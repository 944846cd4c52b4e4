ghost use Rattle.std.specs.Prelude.{◌≡◌, ◌≤◌, IfOk, length};
ghost use Rattle.device_path.specs.DevicePath.{is_end, node_at};

use crate::refusal::PathRefusal;
use byteorder::{ByteOrder, LittleEndian};

/// How many bytes the header of a node has.
const HEADER: usize = 4;

/// The header of a node (UEFI 2.8, 10.3.1: Generic Device Path Structures).
#[derive(Clone, Copy, Debug, PartialEq, Eq)]
pub struct Node {
    /// Its type: 1 for hardware, 2 for ACPI, 0x7F for the end of a path.
    pub kind: u8,
    /// Its sub-type.
    pub sub: u8,
    /// How many bytes it has, including its header.
    pub length: u16,
}

/// The header of the node at the front of bytes. Takes no memory.
///
/// # Errors
///
/// `Short` if there are fewer than 4 bytes, or fewer than the node says that it has; `BadLength` if
/// it says that it has fewer than 4.
#[tactic(auto, unfolding(fw_types::specs::Layout::uint16_at))]
pub fn node_at(bytes: &[u8]) -> Result<Node, PathRefusal>
    ensures node { result ≡ node_at bytes.now }
    ensures whole { IfOk result (λ node. node.length ≤ length bytes.now) }
    ensures some { IfOk result (λ node. 4 ≤ node.length) }
{
    if bytes.len() < HEADER {
        return Err(PathRefusal::Short);
    }
    let length = LittleEndian::read_u16(&bytes[2..]);
    if usize::from(length) < HEADER {
        return Err(PathRefusal::BadLength);
    }
    if usize::from(length) > bytes.len() {
        return Err(PathRefusal::Short);
    }
    Ok(Node {
        kind: bytes[0],
        sub: bytes[1],
        length,
    })
}

/// Whether bytes begin with the type and the sub-type of an End Entire Device Path node, 7F FF,
/// whatever length follows (UEFI 2.8, 10.3.1: Generic Device Path Structures). Takes no memory.
pub fn is_end(bytes: &[u8]) -> bool
    ensures { result ≡ is_end bytes.now }
{
    bytes.starts_with(&[0x7F, 0xFF])
}
