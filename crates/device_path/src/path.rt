ghost use Rattle.std.specs.Prelude.{◌≡◌, ◌≤◌, ◌<◌, IfOk, IfSome, length};
ghost use Rattle.device_path.specs.DevicePath.{pci_node, path_in, root_path, with_pci};
ghost use Rattle.device_path.specs.Steps.{AreNodesOf, GivesBytes, first_size};

use crate::node::{is_end, node_at};
use crate::refusal::PathRefusal;
use std::alloc::Global;

/// The End Entire Device Path node (UEFI 2.8, 10.3.1: Generic Device Path Structures).
const END_NODE: [u8; 4] = [0x7F, 0xFF, 0x04, 0x00];

/// How many bytes the first node of a path has; `None` at the path's end.
pub fn first_size(path: &[u8]) -> Result<Option<usize>, PathRefusal>
    ensures size { result ≡ first_size path.now }
    ensures whole { IfOk result (λ first. IfSome first (λ size. size ≤ length path.now)) }
    ensures some { IfOk result (λ first. IfSome first (λ size. 0 < size)) }
{
    let node = node_at(path)?;
    if is_end(path) {
        return Ok(None);
    }
    Ok(Some(usize::from(node.length)))
}

/// How many bytes the nodes of a path have, without the End node.
fn size_of_nodes(path: &[u8]) -> Result<usize, PathRefusal>
    ensures { AreNodesOf result path.now }
{
    let mut rest = path;
    'nodes: while let Some(size) = first_size(rest)? {
        rest = &rest[size..];
    }
    Ok(path.len() - rest.len())
}

/// The path of the PCI root bridge with a _UID: its ACPI node, whose _HID is PNP0A03, and an End
/// node (UEFI 2.8, 10.3.3: ACPI Device Path). Takes no memory.
pub fn root_path(uid: u32) -> [u8; 16]
    ensures { result ≡ root_path uid }
{
    let [a, b, c, d] = uid.to_le_bytes();
    [
        0x02, 0x01, 0x0C, 0x00, 0xD0, 0x41, 0x03, 0x0A, a, b, c, d, 0x7F, 0xFF, 0x04, 0x00,
    ]
}

/// A PCI node (UEFI 2.8, 10.3.2.1: PCI Device Path). `device` and `function` are the numbers of a
/// function on its bus. Takes no memory.
pub fn pci_node(device: u8, function: u8) -> [u8; 6]
    ensures { result ≡ pci_node device function }
{
    [0x01, 0x01, 0x06, 0x00, function, device]
}

/// A path with a PCI node (UEFI 2.8, 10.3.2.1: PCI Device Path) after its nodes, and then an End
/// node of 4 bytes. `device` and `function` are the numbers of the function on its bus.
///
/// # Errors
///
/// `Short` or `BadLength` as the first bad node of the path says; `OutOfMemory` if there is no
/// memory for the new path.
pub fn append_pci(
    alloc: Global,
    path: &[u8],
    device: u8,
    function: u8,
) -> Result<Vec<u8>, PathRefusal>
    ensures { GivesBytes result (with_pci (path_in path.now) device function) }
{
    let size = size_of_nodes(path)?;
    let node = pci_node(device, function);
    let mut child = Vec::with_capacity(alloc, size + node.len() + END_NODE.len())?;
    child.extend_from_slice(&path[..size])?;
    child.extend_from_slice(&node)?;
    child.extend_from_slice(&END_NODE)?;
    Ok(child)
}
