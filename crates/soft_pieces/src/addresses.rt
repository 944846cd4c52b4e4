//! How far the addresses of blocks and images rise.
ghost use Rattle.std.specs.Prelude.{◌≡◌, ◌^◌, ◌<◌, ◌≤◌};
ghost use Rattle.guest_memory.specs.declared.address_map.TheConstants.{IMAGE_END as last_image};
ghost use Rattle.world_model.specs.Blocks.{block_room as block_room_of};
ghost use Rattle.world_model.specs.Images.{next_step as first_step};

use guest_memory::address_map::IMAGE_STEP;

/// How many addresses a block of so many bytes takes.
pub fn block_room(size: u64) -> u64
    requires { size < 2 ^ 63 }
    ensures { result ≡ block_room_of size }
{
    (size.div_ceil(16) * 16).max(16)
}

/// The first address for an image that is not below another address.
pub fn next_step(at: u64) -> u64
    requires { at ≤ last_image }
    ensures { result ≡ first_step at }
{
    at.div_ceil(IMAGE_STEP) * IMAGE_STEP
}
