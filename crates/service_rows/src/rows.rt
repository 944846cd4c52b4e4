//! The services on the task priority level and on memory.
ghost use Rattle.std.specs.Prelude.{◌≡◌, ◌<◌};
ghost use Rattle.service_model.specs.Rows.{allocate_pool, copy_mem, free_pool, raise_tpl, restore_tpl, set_mem, stall, unbuilt};

use crate::words::{readable, refuse_if, writable};
use fw_types::{MOST_BYTES, Status};
use fw_world::World;
use service_model::{Change, Stop, TPL_HIGH_LEVEL};

/// RaiseTPL (UEFI 2.8, 7.1): sets the level unless it would fall or pass the highest one, and answers the
/// previous level.
///
/// # Errors
///
/// None.
pub fn raise_tpl(new: u64, w: &World) -> Result<Change, Stop>
    ensures { result ≡ raise_tpl new w.now.now }
{
    let old = u64::from(w.tpl());
    if old > new || new > TPL_HIGH_LEVEL {
        return Ok(Change::Value(old));
    }
    Ok(Change::SetTpl {
        tpl: new as u8,
        answer: old,
    })
}

/// RestoreTPL (UEFI 2.8, 7.1): sets the level unless it would rise.
///
/// # Errors
///
/// None.
pub fn restore_tpl(old: u64, w: &World) -> Result<Change, Stop>
    ensures { result ≡ restore_tpl old w.now.now }
{
    if old > u64::from(w.tpl()) {
        return Ok(Change::Value(Status::SUCCESS.0));
    }
    Ok(Change::SetTpl {
        tpl: old as u8,
        answer: Status::SUCCESS.0,
    })
}

/// AllocatePool (UEFI 2.8, 7.2): a block of `size` bytes, whose address is stored at `out`.
///
/// # Errors
///
/// `Status` with INVALID_PARAMETER if `out` is NULL, or with OUT_OF_RESOURCES for more than `MOST_BYTES`;
/// `Trap` with `Memory` if `out` can't be written.
pub fn allocate_pool(size: u64, out: u64, w: &World) -> Result<Change, Stop>
    ensures { result ≡ allocate_pool size out w.now.now }
{
    refuse_if(out == 0, Status::INVALID_PARAMETER)?;
    writable(8, out, w)?;
    refuse_if(size > MOST_BYTES, Status::OUT_OF_RESOURCES)?;
    Ok(Change::Allot { size, out })
}

/// FreePool (UEFI 2.8, 7.2).
///
/// # Errors
///
/// None. Whether a block begins at the address is checked when the change is applied.
pub fn free_pool(at: u64, w: &World) -> Result<Change, Stop>
    ensures { result ≡ free_pool at w.now.now }
{
    Ok(Change::Free { at })
}

/// Stall (UEFI 2.8, 7.5): returns at once, since nothing here depends on real time.
///
/// # Errors
///
/// None.
pub fn stall(w: &World) -> Result<Change, Stop>
    ensures { result ≡ stall w.now.now }
{
    Ok(Change::Value(Status::SUCCESS.0))
}

/// CopyMem (UEFI 2.8, 7.5): copies `n` bytes, as if through a separate buffer.
///
/// # Errors
///
/// `Trap` with `Memory` if the bytes can't be read or written.
pub fn copy_mem(to: u64, from: u64, n: u64, w: &World) -> Result<Change, Stop>
    ensures { result ≡ copy_mem to from n w.now.now }
{
    readable(n, from, w)?;
    writable(n, to, w)?;
    Ok(Change::Copy { to, from, n })
}

/// SetMem (UEFI 2.8, 7.5): sets `n` bytes, all to one value.
///
/// # Errors
///
/// `Trap` with `Memory` if the bytes can't be written.
pub fn set_mem(to: u64, n: u64, byte: u8, w: &World) -> Result<Change, Stop>
    ensures { result ≡ set_mem to n byte w.now.now }
{
    writable(n, to, w)?;
    Ok(Change::Fill { to, n, byte })
}

/// A service that is not built.
///
/// # Errors
///
/// `Status` with UNSUPPORTED, always.
pub fn unbuilt(w: &World) -> Result<Change, Stop>
    ensures { result ≡ unbuilt w.now.now }
{
    Err(Stop::Status(Status::UNSUPPORTED))
}
