//! Which files are EBC driver images, and what they are in memory (PE/COFF, PE32+).
//!
//! `check` accepts a file or says why not, and takes no memory. The view that it gives answers what
//! the headers say, and `lay` makes the bytes that the image has in memory at a base address.
//!
//! - `numbers`: numbers at places of a file.
//! - `fields`: the fields of the headers.
//! - `sections`: the section table.
//! - `relocations`: the relocation directory, its blocks and their entries.
//! - `rules`: the twelve rules of an accepted file.
//! - `laying`: the image in memory.
//! - `image`: what the crate exports.
//! - `laws`: what holds of blocks, of sections and of laid images.
#![tactic(auto)]

mod fields;
mod image;
pub mod laws;
mod laying;
mod numbers;
mod relocations;
mod rules;
mod sections;

pub use image::{PeView, check, lay};
pub use sections::Section;

#[cfg(test)]
mod tests;
