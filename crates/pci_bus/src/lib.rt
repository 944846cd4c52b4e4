//! The PCI bus driver of the firmware: what it supports, and how it makes a child of a root bridge.
//!
//! `support` has what it answers for a controller and a path, and for which functions it makes
//! children. A child is a handle for a function of the board. `path` has its device path, `blocks`
//! its other blocks, and `child` makes it.
#![tactic(auto)]

mod blocks;
mod child;
mod path;
mod support;

pub use child::make_child;
pub use support::{bus_start, bus_supported};

#[cfg(test)]
mod tests;
