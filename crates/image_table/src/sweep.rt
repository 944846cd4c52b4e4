//! Whether an image is in use, and the sweep that removes it (UEFI 2.8, 7.4: UnloadImage).
ghost use Rattle.std.specs.Prelude.{◌≡◌, [], OnErr};
ghost use Rattle.world_model.specs.Images.{drop_answer};
ghost use Rattle.world_model.specs.ImageSweep.{image_swept, is_in_use};
ghost use Rattle.world_model.specs.World.{on_soft};

use fw_types::{Guid, Handle, Known};
use fw_world::{World, WorldFault};

/// Whether an image is in use (UEFI 2.8, 7.3: OpenProtocol). It is if one of its agents has an open
/// record with BY_DRIVER, EXCLUSIVE or BY_CHILD_CONTROLLER, or if there is such a record of an
/// interface that the image owns. Its agents are its handle and the handles whose driver binding it
/// owns. Takes no memory.
#[tactic(auto, unfolding(world_model::specs::ImageSweep::is_in_use))]
pub fn in_use(w: &World, image: Handle) -> bool
    ensures { result ≡ is_in_use image w.now.now.soft }
{
    w.entries()
        .has_use_of(w.db(), image, Guid::known(Known::DriverBinding))
}

/// Drops an image with all that belongs to it, in one sweep (UEFI 2.8, 7.4: UnloadImage): the open
/// records of its agents, the interfaces that it owns and its loaded image interface, the thunks that
/// enter it, its bytes and its loaded image block. A handle that loses its last interface is removed,
/// and so are the records that name it. The blocks that its driver allocated stay. No mark is open.
/// Takes no memory.
///
/// # Errors
///
/// `NotThere` if the handle is not that of a loaded image. The world is then as before.
pub fn drop_all(w: &mut World, image: Handle) -> Result<(), WorldFault>
    requires unmarked { w.old.marks ≡ [] }
    ensures answer { result ≡ drop_answer image w.old.now.soft }
    ensures now { w.new.now ≡ on_soft (image_swept image) w.old.now }
    ensures marks { w.new.marks ≡ w.old.marks }
    ensures refused { OnErr result (w.new ≡ w.old) }
{
    w.sweep_image(image)
}
