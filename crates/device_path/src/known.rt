ghost use Rattle.std.specs.Prelude.{◌≡◌, Some};
ghost use Rattle.device_path.specs.PathText.{is_pci, is_pci_root, known_node, known_text};

use byteorder::{ByteOrder, LittleEndian};
use std::fmt;

/// A node that has a text.
#[derive(Clone, Copy, Debug, PartialEq, Eq)]
pub enum KnownNode {
    /// A PCI root bridge, with its _UID.
    PciRoot { uid: u32 },
    /// A PCI function.
    Pci { device: u8, function: u8 },
}

impl fmt::Display for KnownNode {
    ghost output = { λ node. Some (known_text node) };

    fn fmt<W: fmt::Write>(&self, f: &mut fmt::Formatter<W>) -> fmt::Result {
        match *self {
            KnownNode::PciRoot { uid } => write!(f, "PciRoot(0x{uid:X})"),
            KnownNode::Pci { device, function } => write!(f, "Pci(0x{device:X},0x{function:X})"),
        }
    }
}

/// What a node says, if it has a text.
#[tactic(auto, unfolding(fw_types::specs::Layout::uint32_at))]
pub fn known_node(node: &[u8]) -> Option<KnownNode>
    ensures { result ≡ known_node node.now }
{
    if is_pci_root(node) {
        return Some(KnownNode::PciRoot {
            uid: LittleEndian::read_u32(&node[8..]),
        });
    }
    if is_pci(node) {
        return Some(KnownNode::Pci {
            device: node[5],
            function: node[4],
        });
    }
    None
}

fn is_pci_root(node: &[u8]) -> bool
    ensures { result ≡ is_pci_root node.now }
{
    node.len() == 12 && node.starts_with(&[0x02, 0x01, 0x0C, 0x00, 0xD0, 0x41, 0x03, 0x0A])
}

fn is_pci(node: &[u8]) -> bool
    ensures { result ≡ is_pci node.now }
{
    node.len() == 6 && node.starts_with(&[0x01, 0x01, 0x06, 0x00])
}
