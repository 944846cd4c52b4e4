//! A PCI board: its root bridges, its functions with their BARs and option ROMs, and the registers
//! of its devices.
//!
//! A board is the list of its lines. Which function is at a location (bus, device and function
//! number), which buses there are, and which BARs a function has, is looked up in the lines;
//! `Board` has an index for what is asked often. It also has what drivers can change: the bytes of
//! each function's configuration space and of its BARs. A contract sees a `Board` as these two, the
//! record `BoardState`.
#![tactic(auto)]

mod access;
mod below;
mod board;
mod config_space;
mod device;
mod fault;
mod function;
pub mod laws;
mod line;
mod numbers;
mod refusal;
mod rules;
mod space;
mod tables;

pub use board::{Board, board_from};
pub use fault::{BoardFault, LineFault};
pub use line::BoardLine;
pub use numbers::MOST_ROM_BYTES;
pub use refusal::DevRefusal;
pub use rules::line_fault;
pub use space::Space;

#[cfg(test)]
mod tests;
