//! Option ROMs (PCI Firmware 3.2, PCI Expansion ROMs; UEFI 2.8, PCI Option ROMs): which images one
//! has, and a writer.
//!
//! `images` walks over the images of a ROM and then says how the ROM ended. It takes any bytes, and
//! no memory. `write` makes a ROM of drivers' files, which the walk reads back.
//!
//! - `header`: what the image at the front of bytes says, and why there is none.
//! - `walk`: the walk over the images.
//! - `image`: what the walk gives of an image.
//! - `laws`: a ROM by the ranges of its images.
//! - `part`: a driver for a ROM, and why none is written.
//! - `front`: what comes before the body in a written image.
//! - `writer`: the whole ROM.
#![tactic(auto)]

mod front;
mod header;
mod image;
pub mod laws;
mod part;
mod walk;
mod writer;

pub use image::RomImage;
pub use part::{HIGHEST_CLASS, LONGEST_BODY, RomPart, RomWriteFault};
pub use walk::{RomIter, images};
pub use writer::write;

#[cfg(test)]
mod tests;
