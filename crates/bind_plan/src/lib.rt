//! Which drivers are called for a controller, and in what order (UEFI 2.8, 7.3: ConnectController,
//! DisconnectController).
//!
//! `bindings` reads driver bindings out of guest memory. `driver_order` has the order in which
//! ConnectController asks drivers whether they support a controller, and `stop_order` has the list of drivers
//! that DisconnectController stops. `agent_records` says whether an agent has a record on a controller.
//! `numbers` has handles as numbers. `handle_set` and `started_drivers` have sets of handles, which find a
//! driver among many. No call changes the world, and each answers what the definitions of `driver_model` say:
//! `specs/Bindings.antt`, `DriverOrder.antt` and `StopOrder.antt`.
#![tactic(auto)]

mod agent_records;
mod bindings;
mod driver_order;
mod handle_set;
mod numbers;
mod started_drivers;
mod stop_order;

pub use agent_records::has_record_on;
pub use bindings::binding;
pub use driver_model::BindingBlock;
pub use driver_order::{order, order_of_unmarked};
pub use numbers::numbers_of;
pub use started_drivers::StartedDrivers;
pub use stop_order::stop_list;

#[cfg(test)]
mod tests;
