//! The boot services, up to where a service enters the driver model again.
//!
//! `serve` is the table of `service_model`, `specs/BootServices.antt`. Each row of it is a function of
//! `service_rows` that looks at the arguments and at the world, and answers a change or why it stops. Only
//! `changes` changes the world, by the calls of `storing`, `interfaces`, `buffers` and `devices`, also for
//! the functions of PCI I/O. `reentries` has what services that enter the driver model again go on with.
//! `reopen` is the second look of an OpenProtocol for which a driver was disconnected.
#![tactic(auto)]

mod boot_services;
mod buffers;
mod changes;
mod devices;
mod interfaces;
mod reentries;
mod storing;

pub use boot_services::{reopen, serve};
pub use changes::end_row;
pub use service_model::{Caller, HandleInterface, Opening, Reentry, Removal, Served};

#[cfg(test)]
mod connect_tests;
#[cfg(test)]
mod fillings;
#[cfg(test)]
mod limit_tests;
#[cfg(test)]
mod order_tests;
#[cfg(test)]
mod protocol_tests;
#[cfg(test)]
mod steps;
#[cfg(test)]
mod tests;
