//! The generator of loads: a script of a chosen size, and the shelf with the file that it loads.
//!
//! [`generate`] gives both. The board of the script is a root bridge with so many functions. Its
//! commands load the smallest driver so many times, and then connect and disconnect the root bridge
//! so many times. The shelf is in memory and never fails.
//!
//! - `load`: the script with its shelf.
//! - `board`: the lines of the board. `commands`: the commands. `files`: the shelf.
//!
//! The definitions are in `specs/GeneratedLoad.antt`.
#![tactic(auto)]

mod board;
mod commands;
mod files;
mod load;
#[cfg(test)]
mod tests;

pub use load::{LARGEST_LOAD, generate};
