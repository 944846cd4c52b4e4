//! The parts of the driver model that call no driver (UEFI 2.8, 7.3, 7.4, 9.1, 11.1 and chapter 22).
//! They are what ConnectController, DisconnectController, driver calls, runs of EBC code, and the
//! load and unload of images look at and do between the drivers that they call. `engine` puts these
//! parts together and calls the drivers.
//!
//! - `asking`: which drivers ConnectController asks, how, and what it answers.
//! - `driver_calls`: what a driver call enters, may spend and comes to; `settling`: what is kept of
//!   it.
//! - `native_calls`: what a native call of EBC code goes to, with what arguments, and how it
//!   returns.
//! - `loading`, `unloading`: what the load and the unload of an image do around the call of its
//!   entry point and of its handler.
//! - `thunk_request`: the thunks that code asks for; `run_end`: how code ends.
//! - `bus_start`, `rom_drivers`, `bus_stop`: what Supported and Start of the PCI bus driver do
//!   before option ROMs are loaded, what is loaded of them, and what Stop does around uninstalls.
//! - `removal`, `uninstalling`: what OpenProtocol and the uninstalls do around the disconnect of a
//!   driver. `early_refusal`: which uninstalls are refused before that.
//! - `handles`: live handles and children; `stopping`: what DisconnectController looks at and
//!   closes.
//!
//! Each function answers what a definition of `driver_model` says, which its contract cites.
#![tactic(auto)]

mod asking;
mod bus_start;
mod bus_stop;
mod driver_calls;
mod early_refusal;
mod handles;
mod loading;
mod native_calls;
mod removal;
mod rom_drivers;
mod run_end;
mod settling;
mod stopping;
mod thunk_request;
mod uninstalling;
mod unloading;

pub use asking::{child_connection, connect_status, driver_call, drivers_to_ask};
pub use bus_start::{begin_start, bus_support, path_of};
pub use bus_stop::{child_of_root, free_blocks, interfaces_to_go};
pub use driver_calls::{allowance, code_of, event_kind, is_success, outcome_of};
pub use early_refusal::is_refused_early;
pub use handles::{children_of, live_handle};
pub use loading::{ImageLoad, entry_call, failed, refused, settle_load};
pub use native_calls::{callee, caller, passed_slots, serve_caller, take_answer, take_end};
pub use removal::{is_passed_on, look_again};
pub use rom_drivers::{add_loaded, drivers_to_load};
pub use run_end::{exit_of, trapped};
pub use settling::settle;
pub use stopping::{
    are_all, children_to_stop, close_children, conclude, controller_of, is_of_another, manages,
    note, stop_call,
};
pub use thunk_request::meet_request;
pub use uninstalling::{
    handle_to_clear, is_first_there, is_kept_from, manager_on, remove_interface, settle_all,
};
pub use unloading::{handler_of, settle_unload, unload_call};
