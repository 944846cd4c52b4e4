//! What several changes have in common: a status is answered, a number is stored, a block of the pool is
//! made, bytes are copied.
ghost use Rattle.std.specs.Prelude.{◌≡◌, IfOk, OnOk, length, true};
ghost use Rattle.guest_memory.specs.GuestMemory.{bytes_of, is_readable, is_writable_range};
ghost use Rattle.service_model.specs.Allowed.{can_store};
ghost use Rattle.service_model.specs.Changes.{block_allotted, number_stored, stored_if};
ghost use Rattle.leaf_services.specs.Writable.{StaysWritable};

use fw_types::{OutOfMemory, Status};
use fw_world::{World, WorldFault};
use guest_memory::SegKind;
use service_model::Served;
use service_model::laws::blocks_leave_writable;

/// The service returns with a status.
pub fn with_status(status: Status) -> Served
    ensures { result ≡ Served.Value status.0 }
{
    Served::Value(status.0)
}

/// Stores a number in 8 bytes that can be written.
pub fn store(at: u64, value: u64, w: &mut World) -> Result<(), OutOfMemory>
    requires { is_writable_range w.old.now.soft.memory at 8 ≡ true }
    ensures now { OnOk result (w.new.now ≡ number_stored at value w.old.now) }
    ensures marks { OnOk result (w.new.marks ≡ w.old.marks) }
{
    w.put(at, &value.to_le_bytes())
}

/// Stores a number if an address is given for it. The bytes there can be written.
pub fn store_if(out: Option<u64>, value: u64, w: &mut World) -> Result<(), OutOfMemory>
    requires { can_store out w.old.now ≡ true }
    ensures now { OnOk result (w.new.now ≡ stored_if out value w.old.now) }
    ensures marks { OnOk result (w.new.marks ≡ w.old.marks) }
{
    match out {
        None => Ok(()),
        Some(at) => store(at, value, w),
    }
}

/// Makes a block of the pool of these bytes. Answers its address, or `None` if a limit is met.
pub fn allot(bytes: Vec<u8>, w: &mut World) -> Result<Option<u64>, OutOfMemory>
    ensures now { IfOk result (λ at. block_allotted bytes.items w.old.now ≡ (at, w.new.now)) }
    ensures marks { OnOk result (w.new.marks ≡ w.old.marks) }
    ensures writable { OnOk result (StaysWritable w.old.now w.new.now) }
{
    blocks_leave_writable();
    w.is_kept();
    match w.allot(bytes, SegKind::Pool) {
        Ok(at) => Ok(Some(at)),
        Err(WorldFault::OutOfMemory) => Err(OutOfMemory),
        Err(_) => Ok(None),
    }
}

/// A copy of bytes that can be read.
pub fn copy_of(from: u64, n: u64, w: &World) -> Result<Vec<u8>, OutOfMemory>
    requires { is_readable w.now.now.soft.memory from n ≡ true }
    ensures bytes { IfOk result (λ copy. copy.items ≡ bytes_of w.now.now.soft.memory from n) }
    ensures size { IfOk result (λ copy. length copy.items ≡ n) }
{
    Ok(Vec::from_slice(w.alloc(), w.bytes(from, n))?)
}
