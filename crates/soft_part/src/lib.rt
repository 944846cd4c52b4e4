//! The soft part of the world: all that an undo puts back, except for the open records, which have a log of
//! their own. It has the memory of drivers, the handle database, the images that are loaded, the thunks into
//! them, the children of the bus and the option ROMs that were processed, the task priority level and the
//! next addresses.
//!
//! A contract sees a `SoftPart` as the record `Soft` of `world_model`, without records. Each call that changes it
//! says which single change of `world_model` it is. What holds of every soft part is the type's
//! invariant. `soft_pieces` has what needs only some of the pieces.
#![tactic(auto)]

mod plain_part;
mod roots;
mod soft_part;

pub use soft_part::SoftPart;
