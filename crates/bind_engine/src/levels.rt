//! How a command runs drivers: its own activations are at level 0, and the driver calls that it
//! makes are at level 1.
use driver_model::Scope;
use fw_types::MOST_LEVELS;

/// What a command does is outside all events.
pub const OUTSIDE: Scope = Scope { event: 0 };

/// How many levels are below that of a command.
pub const ROOM: u8 = MOST_LEVELS;

/// How many levels are below that of the driver calls that a command makes.
pub const FIRST_ROOM: u8 = MOST_LEVELS - 1;
