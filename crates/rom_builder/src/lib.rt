//! Writes the files that drivers come in: PE32+ images of EBC code (PE/COFF), which `pe_image`
//! accepts, and PCI option ROMs of such files (PCI Firmware 3.2), which `option_rom` reads back.
//!
//! - `parts`: what an image is made of, and why none is made.
//! - `headers`: the headers of an image file.
//! - `relocations`: the blocks of its relocation directory.
//! - `image`: the whole file.
//! - `laws`: what a made image is once it is laid, and in which order relocations are taken.
//! - `rom`: an option ROM of files.
#![tactic(auto)]

mod headers;
mod image;
pub mod laws;
mod parts;
mod relocations;
mod rom;

pub use image::pe_of;
pub use parts::{BuildFault, DriverParts};
pub use rom::rom_of;

#[cfg(test)]
mod pe_tests;
#[cfg(test)]
mod rom_tests;
