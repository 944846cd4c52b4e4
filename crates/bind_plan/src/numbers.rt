//! Handles as numbers.
ghost use Rattle.std.specs.Prelude.{◌≡◌, IfOk};

use fw_types::{Handle, OutOfMemory};
use std::alloc::Global;

/// The numbers of handles, in their order.
///
/// # Errors
///
/// `OutOfMemory` if there is no memory for the list.
pub fn numbers_of(alloc: Global, handles: &[Handle]) -> Result<Vec<u64>, OutOfMemory>
    ensures { IfOk result (λ numbers. numbers.items ≡ handles.now) }
{
    let mut numbers = Vec::with_capacity(alloc, handles.len())?;
    for handle in handles {
        numbers.push(handle.get())?;
    }
    Ok(numbers)
}
