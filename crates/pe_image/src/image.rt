ghost use Rattle.std.specs.Prelude.{◌≡◌, ◌⊎◌, ◌<◌, ◌≤◌, ◌%◌, length, IfOk, IfSome};
ghost use Rattle.std.specs.Result.{result_err};
ghost use Rattle.fw_types.specs.declared.image.TheConstants.{BOOT_SERVICE_DRIVER as boot_service_driver, RUNTIME_DRIVER as runtime_driver};
ghost use Rattle.fw_types.specs.declared.limits.TheConstants.{MOST_FILE_BYTES as most_file_bytes};
ghost use Rattle.pe_image.specs.Headers.{named_sections_of};
ghost use Rattle.pe_image.specs.ImageRules.{code_end_of, entry_of, refusal_of, size_of, subsystem_of};
ghost use Rattle.pe_image.specs.LaidImage.{laid};

use crate::fields;
use crate::laying::{plain_image, relocate};
use crate::rules::refusal;
use crate::sections::{Section, named_sections_of, section_with};
use fw_types::{OutOfMemory, PeRefusal};
use std::alloc::Global;
use std::marker::Model;

/// A file that was accepted. Contracts see its bytes.
#[derive(Debug, Drop)]
pub struct PeView<'a> {
    bytes: &'a [u8],
}

impl<'a> Model for PeView<'a> {
    ghost use Rattle.std.specs.Prelude.{◌≡◌, ℕ, List, None};

    ghost Value = { List ℕ };

    ghost use Rattle.pe_image.specs.ImageRules.{refusal_of};

    ghost view = { λ view. view.bytes.now };

    ghost invariant = { λ view. refusal_of view.bytes.now ≡ None };
}

/// Whether a file is an EBC driver that is loaded: a PE32+ image for the machine EBC (PE/COFF).
/// Takes no memory.
///
/// # Errors
///
/// The first of these that applies:
///
/// 1. `Short`: fewer than 64 bytes.
/// 2. `NoMz`: the first two bytes are not `MZ`.
/// 3. `NoPe`: the PE signature, whose place is the u32 at 0x3C, is not there, or fewer than 20
///    bytes follow it.
/// 4. `Machine`: the machine is not 0x0EBC.
/// 5. `Magic`: the optional header has fewer than 112 bytes, passes the file's end, or does not
///    begin with 0x20B.
/// 6. `Subsystem`: it is neither 11 nor 12.
/// 7. `Stripped`: bit 0 of the characteristics is set.
/// 8. `Size`: the size of image is 0 or over 16 MiB.
/// 9. `Headers`: the size of headers is over the size of image or the file's length, or there are
///    more than 96 sections, or the section table passes the size of headers.
/// 10. `Section`: a section begins before the end of the section before it, or of the headers, or
///     it passes the size of image, or its bytes in the file pass the file's end. A section has its
///     virtual size in the image, or its raw size if that is 0; the smaller of the two is copied
///     from the file.
/// 11. `Reloc`: there is a relocation directory, and it does not lie in the copied part of a
///     section, or a block has fewer than 8 bytes left, or a size that is below 8, odd or past the
///     directory's end, or an entry has another type than 0, 3 or 10, or the bytes that it changes
///     pass the size of image.
/// 12. `Entry`: the entry point is odd, or not below the size of image.
pub fn check(bytes: &[u8]) -> Result<PeView<'_>, PeRefusal>
    ensures refused { result_err result ≡ refusal_of bytes.now }
    ensures view { IfOk result (λ view. view ≡ bytes.now) }
{
    match refusal(bytes) {
        Some(kind) => Err(kind),
        None => Ok(PeView { bytes }),
    }
}

impl<'a> PeView<'a> {
    /// The size of the image once it is laid, in bytes: from 1 to 16 MiB (PE/COFF: Optional Header
    /// Windows-Specific Fields).
    pub fn size(&self) -> u32
        ensures value { result ≡ size_of self.now }
        ensures some { 1 ≤ result }
        ensures at_most { result ≤ most_file_bytes }
    {
        fields::size_of_image(self.bytes)
    }

    /// The place in the laid image at which the driver is entered (PE/COFF: Optional Header
    /// Standard Fields).
    pub fn entry(&self) -> u32
        ensures value { result ≡ entry_of self.now }
        ensures even { result % 2 ≡ 0 }
        ensures inside { result < size_of self.now }
    {
        fields::entry_point(self.bytes)
    }

    /// The subsystem: 11 for an EFI boot service driver, 12 for an EFI runtime driver (PE/COFF:
    /// Windows Subsystem).
    pub fn subsystem(&self) -> u16
        ensures value { result ≡ subsystem_of self.now }
        ensures driver { (result ≡ boot_service_driver) ⊎ (result ≡ runtime_driver) }
    {
        fields::subsystem(self.bytes)
    }

    /// The end in the laid image of the section that has the entry point; `None` if no section has
    /// it (PE/COFF: Section Table).
    pub fn code_end(&self) -> Option<u32>
        ensures value { result ≡ code_end_of self.now }
        ensures after_entry { IfSome result (λ end. entry_of self.now < end) }
        ensures inside { IfSome result (λ end. end ≤ size_of self.now) }
    {
        match section_with(self.bytes, fields::entry_point(self.bytes)) {
            Some(section) => Some(section.end() as u32),
            None => None,
        }
    }

    /// The sections, in the order of the section table and as it describes them (PE/COFF: Section
    /// Table).
    ///
    /// # Errors
    ///
    /// `OutOfMemory` if there is no memory for the list of them.
    pub fn sections(&self, alloc: Global) -> Result<Vec<Section>, OutOfMemory>
        ensures { IfOk result (λ sections. sections.items ≡ named_sections_of self.now) }
    {
        Ok(named_sections_of(alloc, self.bytes)?)
    }
}

/// The bytes of an image that is laid at the address `base`: the headers and each section in its
/// place, and zeros elsewhere, with the relocations of the file applied in its order (PE/COFF:
/// Section Table, The .reloc Section).
///
/// # Errors
///
/// `OutOfMemory` if there is no memory for them.
#[tactic(auto, unfolding(crate::specs::LaidImage::laid))]
pub fn lay(alloc: Global, view: &PeView<'_>, base: u64) -> Result<Vec<u8>, OutOfMemory>
    ensures bytes { IfOk result (λ image. image.items ≡ laid view.now base) }
    ensures size { IfOk result (λ image. length image.items ≡ size_of view.now) }
{
    let mut image = plain_image(alloc, view.bytes)?;
    let delta = base.wrapping_sub(fields::image_base(view.bytes));
    relocate(image.as_mut_slice(), view.bytes, delta);
    Ok(image)
}
