//! The listing of EBC code: `disassemble` writes a line for each instruction (UEFI 2.8, chapter 22
//! 'EFI Byte Code Virtual Machine').
//!
//! The text of a line is a name of `ebc_names` and its operands, each written by its place in the
//! table. The definition is in `specs/Listing.antt`.
#![tactic(auto)]

mod listing;

pub use listing::disassemble;
