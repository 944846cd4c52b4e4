//! How a command that runs drivers ends.
ghost use Rattle.std.specs.Prelude.{◌≡◌, [], ◌∷◌, None, IfOk};

use engine::ImageLoad;
use fw_types::{ImageNote, OutOfMemory, RomEnd, Rows, Status};
use std::alloc::Global;

/// How a command ended: notes on the images of its file, how the option ROM ended if the file is
/// one, and the status.
#[derive(Debug, Drop)]
pub struct Ending {
    pub images: Rows<ImageNote>,
    pub rom: Option<RomEnd>,
    pub status: Status,
}

impl Ending {
    /// The ending of a command that has only a status.
    pub fn with_status(alloc: Global, status: Status) -> Ending
        ensures { result ≡ record { images = []; rom = None; status = status } }
    {
        Ending {
            images: Rows::of(Vec::new(alloc)),
            rom: None,
            status,
        }
    }

    /// The ending of a load of one image.
    ///
    /// # Errors
    ///
    /// `OutOfMemory` if there is no memory for the note on the image.
    pub fn with_image(alloc: Global, load: ImageLoad) -> Result<Ending, OutOfMemory>
        ensures { IfOk result (λ ending.
            ending ≡ record { images = load.note ∷ []; rom = None; status = load.status }) }
    {
        let mut images = Vec::new(alloc);
        images.push(load.note)?;
        Ok(Ending {
            images: Rows::of(images),
            rom: None,
            status: load.status,
        })
    }
}
