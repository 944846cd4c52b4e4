//! The engine that runs drivers over the world: ConnectController and DisconnectController, the
//! driver calls that they make, the runs of EBC code inside those, and the services through which
//! that code enters the driver model again, up to 32 levels deep (UEFI 2.8, 7.3, 11.1 and chapter
//! 22). It also loads images, whose entry points it calls, and unloads them (UEFI 2.8, 7.4). One
//! driver is its own: the PCI bus driver, `bus_driver` (UEFI 2.8, 14.3.2).
//!
//! What each function does is a definition of `driver_model`, which its contract cites. The
//! functions call each other in one cycle. The cycle goes down a level with each driver call, each
//! thunk that code calls, and each child that is connected:
//!
//! ```text
//! connect, disconnect  ->  search, stop_turn  ->  driver_call  ->  guest_run  ->  native_call
//!        ^                                                  |                         |
//!        |                                                  v                         |
//!        |                     image_load  <-----------  bus_driver                   |
//!        |                                                  |                         |
//!        +--------------------------------------------------+-------------------------+
//! ```
//!
//! A function takes the room of the level at which it works: how many levels are below it. In
//! addition to what a function does, its contract says the same about the world for each of them.
//! It requires that no level below has a stack, and that few marks are open (`world_model::laws`,
//! `levels_are_free` and `marks_suffice`). It leaves the open marks and the stacks as they were,
//! units never rise, and no event is lost.
//!
//! The parts that call no driver are in `bind_parts`.
#![tactic(auto)]

mod bus_driver;
mod connection;
mod disconnection;
mod driver_call;
mod guest_run;
mod image_load;
mod image_unload;
mod native_call;
mod removal;
mod search;
mod stop_turn;
mod thunk_call;
mod uninstallation;

pub use bind_parts::ImageLoad;
pub use connection::connect;
pub use disconnection::disconnect;
pub use driver_call::call_driver;
pub use image_load::load_image;
pub use image_unload::unload_image;

#[cfg(test)]
mod tests;
