//! PCI I/O (UEFI 2.8, 14.4: EFI PCI I/O Protocol): what those of its functions do that are built:
//! Mem.Read, Mem.Write, Pci.Read, Pci.Write, GetLocation and Attributes.
//!
//! `rows` has what each does with its arguments, up to the change of the world that it ends with, as
//! `specs/PciIo.antt` of `service_model` says. `functions` is their table, and `pci_serve` serves a call.
//! The change is applied by `leaf_services`.
#![tactic(auto)]

mod functions;
mod rows;

pub use functions::pci_serve;

#[cfg(test)]
mod tests;
