ghost use Rattle.std.specs.Prelude.{◌≡◌, ◌*◌, ◌≤◌, ◌||◌, is_none, length, if◌then◌else◌};
ghost use Rattle.option_rom.specs.RomWalk.{Takes, walk_end, walk_of};
ghost use Rattle.option_rom.specs.RomGrammar.{is_last, size_of_images};
ghost use Rattle.option_rom.specs.RomRead.{HasPcir};
ghost use Rattle.option_rom.specs.declared.walk.Place.TheVariants.{Reading, AfterLast};

use crate::header;
use crate::image::RomImage;
use fw_types::RomEnd;
use std::marker::Model;

/// Where a walk is.
#[derive(Clone, Copy, Debug)]
enum Place {
    /// Before an image, or before the end.
    Reading,
    /// After the image that says that it is the last.
    AfterLast,
    /// At the end, which it has reported.
    Over(RomEnd),
}

/// A walk over the images of an option ROM. Contracts see the images that it has not given yet, how
/// the ROM ends, and whether the walk is over.
#[derive(Debug, Drop)]
pub struct RomIter<'a> {
    rest: &'a [u8],
    place: Place,
}

impl<'a> Model for RomIter<'a> {
    ghost use Rattle.option_rom.specs.RomWalk.{Walk, walk_at};

    ghost Value = { Walk };

    ghost view = { λ walk. walk_at walk.rest.now walk.place };
}

/// The walk over the images of an option ROM, from its first byte on. It takes no memory, nor do
/// its steps (PCI Firmware 3.2: PCI Expansion ROM Header Format).
pub fn images(bytes: &[u8]) -> RomIter<'_>
    ensures walk { result ≡ walk_of bytes.now }
    // Each image has at least 512 bytes.
    ensures most { 512 * length result.images ≤ length bytes.now }
    // They lie in the ROM, one after the other.
    ensures within { size_of_images result.images ≤ length bytes.now }
{
    RomIter {
        rest: bytes,
        place: Place::Reading,
    }
}

impl<'a> RomIter<'a> {
    /// The next image; `None` if there is no further one, and always from then on.
    pub fn next(&mut self) -> Option<RomImage<'a>>
        ensures image { Takes self.old.images result self.new.images }
        ensures end { self.new.end ≡ self.old.end }
        ensures over { self.new.is_over ≡ self.old.is_over || is_none result }
    {
        match self.place {
            Place::Reading => {
                let rest = self.rest;
                if let Some(end) = header::end_at(rest) {
                    self.place = Place::Over(end);
                    return None;
                }
                self.rest = &rest[header::image_length(rest)..];
                self.place = place_after(rest);
                Some(header::image_at(rest))
            }
            Place::AfterLast => {
                self.place = Place::Over(RomEnd::Done);
                None
            }
            Place::Over(_) => None,
        }
    }

    /// How the ROM ended; `None` until `next` has answered `None`.
    pub fn end(&self) -> Option<RomEnd>
        ensures { result ≡ walk_end self.now }
    {
        match self.place {
            Place::Reading | Place::AfterLast => None,
            Place::Over(end) => Some(end),
        }
    }
}

/// Where a walk is after the image at the front.
fn place_after(rest: &[u8]) -> Place
    requires { HasPcir rest.now }
    ensures { result ≡ (if is_last rest.now then AfterLast else Reading) }
{
    if header::is_last(rest) {
        Place::AfterLast
    } else {
        Place::Reading
    }
}
