//! The limits of this firmware. UEFI leaves them open; these numbers are this project's own.

/// The most bytes that all loaded images have, and the most that all blocks of the pool and of the
/// firmware have.
pub const MOST_BYTES: u64 = 67_108_864;

/// The most blocks of the pool and of the firmware.
pub const MOST_BLOCKS: u64 = 65_536;

/// The most bytes of a file: of a script, an image or an option ROM. It is also the most bytes of an
/// image in memory.
pub const MOST_FILE_BYTES: u64 = 16_777_216;

/// The most handles that are live.
pub const MOST_HANDLES: u32 = 4096;

/// Handle numbers stay below this one, which is 2^62.
pub const HANDLE_NUMBER_END: u64 = 0x4000_0000_0000_0000;

/// The most interfaces of a handle.
pub const MOST_INTERFACES: u32 = 64;

/// The most open records.
pub const MOST_RECORDS: u32 = 65_536;

/// The most numbers of thunks that are handed out.
pub const MOST_THUNKS: u32 = 65_536;

/// The most levels of driver calls inside one another. Levels count from 1.
pub const MOST_LEVELS: u8 = 32;

/// The most handles in the list of children that a Stop is given.
pub const MOST_LISTED: u64 = 16_384;

/// The most marks that are open at once.
pub const MOST_MARKS: u64 = 65_536;

/// The units that a command may spend at first.
pub const COMMAND_BUDGET: u32 = 4_194_304;

/// The units that a driver call may spend at first.
pub const CALL_BUDGET: u32 = 1_048_576;

/// The fewest units that a `budget` line may give to a command.
pub const LEAST_COMMAND_BUDGET: u32 = 1;

/// The fewest units that a `budget` line may give to a driver call.
pub const LEAST_CALL_BUDGET: u32 = 64;

/// The most units that a `budget` line may give to a command or to a driver call.
pub const MOST_BUDGET: u32 = 33_554_432;

/// The units that a driver call and an activation of Connect or Disconnect cost.
pub const CALL_PRICE: u64 = 64;
