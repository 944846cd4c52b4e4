ghost use Rattle.std.specs.Prelude.{◌≡◌};
ghost use Rattle.image_table.specs.Owners.{owner_of};

use fw_types::Handle;
use fw_world::World;

/// The handle of the image whose code is at an address: that of the loaded image whose bytes it
/// lies in, or `None` exactly if it lies in none. Takes no memory.
pub fn owner_of(w: &World, at: u64) -> Option<Handle>
    ensures { result ≡ owner_of at w.now.now.soft }
{
    w.image_at(at)
}
