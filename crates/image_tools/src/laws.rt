//! The law of the image tools. It is the contract of a function with no code of its own.
ghost use Rattle.std.specs.Prelude.{◌≡◌, ◌<◌, ℕ, List, None, IsTrue};
ghost use Rattle.std.specs.List.{All};
ghost use Rattle.ebc_asm.specs.Listing.{is_whole, listing, listing_lines, texts};
ghost use Rattle.image_tools.specs.ImageListing.{code_listing};
ghost use Rattle.image_tools.specs.Tools.{listing_answer};

use ebc_asm::laws::listing_is_read_back;
use rom_builder::laws::{made_images_are_laid, made_images_have_their_code};

/// The listing of code at 0x200, if it is one without `.illegal`, is read back through the image:
/// if its texts make an image that is entered at the first byte, the listing of that image is the
/// same.
pub fn listings_of_images_are_read_back()
    ensures { (bytes : List ℕ) →
        All (λ b. b < 256) bytes → IsTrue (is_whole (listing_lines bytes 512)) →
        (listing_answer None (texts (listing_lines bytes 512))).status ≡ 0 →
        code_listing (listing_answer None (texts (listing_lines bytes 512))).output
        ≡ listing bytes 512 }
{
    // By the law of listings, and two laws of made images.
    listing_is_read_back();
    made_images_are_laid();
    made_images_have_their_code();
}
