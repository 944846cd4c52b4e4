//! The `platform` command: which drivers the platform prefers (UEFI 2.8, 11.3: EFI Platform Driver
//! Override Protocol).
ghost use Rattle.std.specs.Prelude.{◌≡◌, IfOk};
ghost use Rattle.bind_engine.specs.Commands.{with_list};

use driver_model::PlatformList;
use fw_types::{OutOfMemory, Rows};
use std::alloc::Global;

/// The lists, with this one in place of the one that the controller had.
///
/// # Errors
///
/// `OutOfMemory` if there is no memory for the list.
pub fn with_list(
    alloc: Global,
    lists: Rows<PlatformList>,
    controller: u64,
    drivers: &[u64],
) -> Result<Rows<PlatformList>, OutOfMemory>
    ensures { IfOk result (λ new. new ≡ with_list controller drivers.now lists) }
{
    let drivers = Rows::of(Vec::from_slice(alloc, drivers)?);
    let mut lists = lists.into_vec();
    lists.retain(|list| list.controller != controller);
    lists.push(PlatformList {
        controller,
        drivers,
    })?;
    Ok(Rows::of(lists))
}
