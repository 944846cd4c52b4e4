//! The images that the firmware loads: their places in the world.
//!
//! `place` checks a file, pays for laying it, and adds its image to the world (UEFI 2.8, 7.4:
//! LoadImage); its entry point is not called here. `pay` and `lay_image` are its two parts, for a
//! caller that has something to do between them. `owner_of` says whose code is at an address.
//! `in_use` says whether an image is in use, and `drop_all` drops it (UEFI 2.8, 7.4: UnloadImage).
//!
//! - `fault`: why a file was not placed.
//! - `placing`: `place`, `pay` and `lay_image`.
//! - `owner`: `owner_of`.
//! - `sweep`: `in_use` and `drop_all`.
#![tactic(auto)]

mod fault;
mod owner;
mod placing;
mod sweep;

pub use fault::PlaceFault;
pub use owner::owner_of;
pub use placing::{lay_image, pay, place};
pub use sweep::{drop_all, in_use};

#[cfg(test)]
mod tests;
