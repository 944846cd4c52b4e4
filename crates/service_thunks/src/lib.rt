//! The firmware's tables, the services at their addresses, and the arguments of a call.
//!
//! A driver finds the boot services by the system table, and the functions of PCI I/O by an
//! interface of that protocol. All are addresses at which no memory is mapped: a native call to one
//! asks for the service that `service_at` names, with the arguments that `args` reads.
#![tactic(auto)]

mod addresses;
mod arguments;
mod laws;
mod service;
mod tables;

pub use addresses::{address_of, service_at};
pub use arguments::args;
pub use laws::{one_address, service_addresses};
pub use service::Service;
pub use tables::{boot_table, system_table};

#[cfg(test)]
mod tests;
