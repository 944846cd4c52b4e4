//! What each boot service does with its arguments, up to the change of the world that it ends with.
//!
//! A function for each row of `service_model` looks at the arguments and at the world, and answers a
//! `Change` or why it stops. Nothing here changes the world: `leaf_services` applies the change, and has
//! the table of services with their prices. The rows are written in the words of `words`, which later
//! tables of services use too. `rows` has the services on memory and on the task priority level,
//! `protocols` those on protocols, `many` those on several pairs, and `connecting` ConnectController and
//! DisconnectController. `second_look` is what OpenProtocol does after a driver was disconnected for it.
#![tactic(auto)]

pub mod connecting;
pub mod many;
pub mod protocols;
pub mod rows;
pub mod second_look;
pub mod words;
