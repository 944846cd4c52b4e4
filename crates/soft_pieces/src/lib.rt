//! The pieces that the soft part of the world is made of: functions over the memory of drivers, the handle
//! database and the plain lists. Each function needs only its own pieces. `soft_part`
//! makes its calls out of them.
//!
//! - `mapping`: mapping that nothing refuses, of an image too, with its handle; `addresses`: how far the
//!   addresses of blocks and images rise.
//! - `images`: the images that are loaded, and what is removed with one and comes back; `image_block`:
//!   what a loaded image block says about an image; `thunks`: the live thunks, by number and by
//!   address.
//! - `stack`: what a driver call finds on its stack, and the list of children that a Stop is given.
//! - `bus_children`: the children of the bus, and the bus lists of the board's functions.
//! - `tables`, `database`: the memory and the handle database of the opening state.
//!
//! Each function answers and leaves what a definition of `world_model` says, which its contract cites.
#![tactic(auto)]

pub mod addresses;
pub mod bus_children;
pub mod database;
pub mod image_block;
pub mod images;
pub mod mapping;
pub mod stack;
pub mod tables;
pub mod thunks;
