//! The definitions of the one state of the firmware, the world, and of its single changes.
//!
//! `specs/World.antt` has the world: a soft part, which an undo puts back, and a hard part, which
//! no undo touches. The other files have each single change as a word. `specs/Kept.antt` says what
//! holds of every soft part. The only code is that of the plain types that definitions and code
//! share.
#![tactic(auto)]

mod boxed;
mod bus_child;
mod change;
mod fault;
mod image;
pub mod laws;
mod stack_levels;
mod thunk;
mod tpl;

pub use boxed::Boxed;
pub use bus_child::BusChild;
pub use change::{Change, DroppedImage, Uninstalled};
pub use fault::WorldFault;
pub use image::LoadedImage;
pub use stack_levels::StackLevels;
pub use thunk::Thunk;
pub use tpl::TPL_APPLICATION;
