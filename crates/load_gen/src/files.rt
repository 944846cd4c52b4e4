ghost use Rattle.std.specs.Prelude.{◌≡◌, IfOk};
ghost use Rattle.rom_builder.specs.MadeImage.{made_image};
ghost use Rattle.load_gen.specs.GeneratedLoad.{shelf, smallest_driver};

use fw_shelf::MemShelf;
use fw_types::{BOOT_SERVICE_DRIVER, OutOfMemory, Rows};
use rom_builder::{BuildFault, DriverParts, pe_of};
use std::alloc::Global;

/// The name of the driver's file.
pub const DRIVER_NAME: &str = "s.efi";

/// The code of the driver: MOVIqw R7, 0 and RET.
const CODE: [u8; 6] = [0x77, 0x37, 0x00, 0x00, 0x04, 0x00];

/// What the driver's image is made of.
///
/// # Errors
///
/// `OutOfMemory` if there is no memory for its code.
fn smallest_driver(alloc: Global) -> Result<DriverParts, OutOfMemory>
    ensures { IfOk result (λ parts. parts ≡ smallest_driver) }
{
    Ok(DriverParts {
        code: Rows::of(Vec::from_slice(alloc, &CODE)?),
        entry: 0,
        relocs: Rows::of(Vec::new(alloc)),
        subsystem: BOOT_SERVICE_DRIVER,
    })
}

/// The file of the driver.
///
/// # Errors
///
/// `OutOfMemory` if there is no memory for it.
#[tactic(auto, using(crate::proofs::DriverLemmas::smallest_driver_made))]
fn driver_file(alloc: Global) -> Result<Vec<u8>, OutOfMemory>
    ensures { IfOk result (λ file. file.items ≡ made_image smallest_driver) }
{
    let parts = smallest_driver(alloc)?;
    match pe_of(alloc, &parts) {
        Ok(file) => Ok(file),
        Err(BuildFault::OutOfMemory) => Err(OutOfMemory),
        Err(_) => unreachable!(),
    }
}

/// The shelf with the driver's file, which never fails.
///
/// # Errors
///
/// `OutOfMemory` if there is no memory for the file.
pub fn shelf(alloc: Global) -> Result<MemShelf, OutOfMemory>
    ensures { IfOk result (λ made. made ≡ shelf) }
{
    let name = String::from_str(alloc, DRIVER_NAME)?;
    let file = driver_file(alloc)?;
    let files = vec![in alloc; (name, file)]?;
    Ok(MemShelf::new(files, Vec::new(alloc)))
}
