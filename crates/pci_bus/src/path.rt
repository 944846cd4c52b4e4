//! The device path of a child of the bus.
ghost use Rattle.std.specs.Prelude.{◌≡◌, [], IfOk, suc};
ghost use Rattle.std.specs.Option.{option_map_or};
ghost use Rattle.pci_model.specs.Ways.{way_within};
ghost use Rattle.world_model.specs.NewChild.{child_path, nodes_of};

use device_path::{pci_node, root_path};
use fw_types::OutOfMemory;
use pci_model::Board;
use std::alloc::Global;

/// The End node of a device path (UEFI 2.8, 10.3.1).
const END_NODE: [u8; 4] = [0x7F, 0xFF, 0x04, 0x00];

/// The PCI nodes on the way to function `f`, at most the last `most` of them: those of the bridges,
/// and then that of the function.
///
/// # Errors
///
/// `OutOfMemory` if there is no memory.
#[cycle(way)]
#[tactic(auto, unfolding(pci_model::specs::Ways::way_within), using(crate::proofs::Ways::one_less))]
fn way_nodes(alloc: Global, board: &Board, most: u32, f: u32) -> Result<Vec<u8>, OutOfMemory>
    ensures { IfOk result (λ nodes. nodes.items ≡ nodes_of (way_within most board.now.lines f)) }
{
    if most == 0 {
        return Ok(Vec::new(alloc));
    }
    longer_way(alloc, board, most - 1, f)
}

/// The same if at least one node may be taken: at most the last `less + 1` of them.
#[cycle(way)]
#[tactic(auto, unfolding(pci_model::specs::Ways::way_within), using(crate::proofs::Ways::nodes_more))]
fn longer_way(alloc: Global, board: &Board, less: u32, f: u32) -> Result<Vec<u8>, OutOfMemory>
    ensures { IfOk result (λ nodes.
        nodes.items ≡ nodes_of (way_within (suc less) board.now.lines f)) }
{
    let Some((bus, device, function)) = board.location(f) else {
        return Ok(Vec::new(alloc));
    };
    let mut nodes = bridge_nodes(alloc, board, less, board.bridge_to(bus))?;
    nodes.extend_from_slice(&pci_node(device, function))?;
    Ok(nodes)
}

/// The PCI nodes on the way to a bridge, or none if there is no bridge.
#[cycle(way)]
fn bridge_nodes(
    alloc: Global,
    board: &Board,
    most: u32,
    bridge: Option<u32>,
) -> Result<Vec<u8>, OutOfMemory>
    ensures { IfOk result (λ nodes.
        nodes.items ≡ nodes_of (option_map_or (way_within most board.now.lines) bridge [])) }
{
    match bridge {
        Some(bridge) => way_nodes(alloc, board, most, bridge),
        None => Ok(Vec::new(alloc)),
    }
}

/// The device path of function `f` below the root bridge with this _UID.
///
/// # Errors
///
/// `OutOfMemory` if there is no memory.
pub fn child_path(alloc: Global, board: &Board, uid: u32, f: u32) -> Result<Vec<u8>, OutOfMemory>
    ensures { IfOk result (λ path. path.items ≡ child_path board.now.lines uid f) }
{
    let root = root_path(uid);
    let mut path = Vec::from_slice(alloc, &root[..12])?;
    let nodes = way_nodes(alloc, board, board.functions(), f)?;
    path.extend_from_slice(&nodes)?;
    path.extend_from_slice(&END_NODE)?;
    Ok(path)
}
