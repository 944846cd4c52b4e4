//! The definitions of the driver model: driver calls, runs of EBC code, ConnectController and DisconnectController,
//! opens that remove a driver, uninstalls that reconnect, and the load and unload of images (UEFI 2.8, 7.3, 7.4, 9.1,
//! 11.1 and chapter 22).
//!
//! `specs/Moves.antt` has each change that they make, as a word. `specs/Level.antt` is what a level asks of the next
//! one: a driver calls services that call drivers, 32 levels deep. `specs/Connect.antt`, `Disconnect.antt`,
//! `OpenWithRemoval.antt` and `UninstallWithReconnection.antt` are the rules of the services that go on, and
//! `specs/GuestRun.antt` and `DriverCall.antt` are those of runs and calls. `specs/Levels.antt` ties the levels
//! together. `laws`, `call_laws` and `unload_laws` say what they leave. `bus_laws` says what holds whenever the PCI bus
//! driver changes the state, `fuel_laws` that no run ends because its turns run out, `uninstall_laws` that some
//! uninstalls change nothing, and `order_laws` what holds of the order of drivers and of searches. There is code only
//! for plain types that definitions and code share.
#![tactic(auto)]

mod binding;
mod bus_driver;
pub mod bus_laws;
mod call;
pub mod call_laws;
pub mod fuel_laws;
pub mod laws;
pub mod order_laws;
mod request;
mod settings;
pub mod uninstall_laws;
pub mod unload_laws;

pub use binding::{BINDING_SIZE, BindingBlock};
pub use bus_driver::{CHILD_PRICE, NewChild, PathChoice};
pub use call::{Call, CallKind, Callee, Code, RunEnd, Scope};
pub use request::{Connection, Disconnection, Remover, StopTurn};
pub use settings::{PlatformList, Settings};
