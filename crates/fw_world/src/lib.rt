//! The one state of the firmware, the world: what drivers see of memory, the handle database, the
//! open records, the images that are loaded and the thunks into them, and also the units and the
//! events of the current command, and the board with its devices.
//!
//! A contract sees a `World` as the record `WorldView` of `world_model`: the state now, and the
//! soft parts that its open marks keep. Each call that changes it says by its clause `now` which
//! single change of `world_model` it is, and by its clause `marks` that each mark keeps what it
//! kept before.
#![tactic(auto)]

mod cap;
mod mark;
mod world;

pub use cap::Cap;
pub use mark::Mark;
pub use world::World;
pub use world_model::{LoadedImage, WorldFault};

#[cfg(test)]
mod board_tests;
#[cfg(test)]
mod record_tests;
#[cfg(test)]
mod tests;
#[cfg(test)]
mod undo_table;
#[cfg(test)]
mod undo_tests;
