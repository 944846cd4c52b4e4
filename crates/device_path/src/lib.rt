//! Device paths (UEFI 2.8, 10.3: Device Path Nodes): which nodes a path has, a path with one more
//! PCI node, and the text of a path.
//!
//! A path is any bytes, as they are in a driver's memory. Its nodes follow one another from the
//! first byte on, and its first End Entire Device Path node ends it; what comes after that node is
//! not looked at. A path in which no such node is found is bad at its first bad node: it has
//! `PathRefusal::Short` or `BadLength`.
#![tactic(auto)]

mod known;
pub mod laws;
mod node;
mod path;
mod refusal;
mod text;

pub use node::{Node, is_end, node_at};
pub use path::{append_pci, pci_node, root_path};
pub use refusal::PathRefusal;
pub use text::text_of;

#[cfg(test)]
mod tests;
