//! What no contract says: which bytes the log holds.
ghost use Rattle.std.specs.Prelude.{◌≡◌, IfOk, length};

use super::SoftLog;
use crate::mark::Mark;
use guest_memory::SegKind;
use std::alloc::{AllocError, Global};
use std::test::Fail;
use world_model::Change;

/// So many zeros.
fn zeros(alloc: Global, size: usize) -> Result<Vec<u8>, AllocError>
    ensures { IfOk result (λ bytes. length bytes.items ≡ size) }
{
    vec![in alloc; 0; size]
}

/// How many bytes the last note since the newest mark holds, if it is that of a block that was freed.
fn bytes_noted(soft_log: SoftLog, mark: &Mark) -> Option<usize>
    requires { mark.now ≡ length soft_log.marks }
{
    let SoftLog {
        alloc: _,
        soft: _,
        records: _,
        mut log,
    } = soft_log;
    match log.take_last(&mark.soft) {
        Some(Change::Free { segment }) => Some(segment.bytes.as_slice().len()),
        _ => None,
    }
}

/// How many bytes are noted of a block that is made and freed under one mark.
fn of_a_new_block(alloc: Global, size: usize) -> Result<Option<usize>, Fail> {
    let mut soft_log = SoftLog::new(alloc, 0, &[])?;
    let mark = soft_log.mark();
    let block = soft_log.allot(zeros(alloc, size)?, SegKind::Pool)?;
    soft_log.free(block, SegKind::Pool)?;
    Ok(bytes_noted(soft_log, &mark))
}

/// How many bytes are noted of a block that is made, and then freed under a mark.
fn of_an_older_block(alloc: Global, size: usize) -> Result<Option<usize>, Fail> {
    let mut soft_log = SoftLog::new(alloc, 0, &[])?;
    let block = soft_log.allot(zeros(alloc, size)?, SegKind::Pool)?;
    let mark = soft_log.mark();
    soft_log.free(block, SegKind::Pool)?;
    Ok(bytes_noted(soft_log, &mark))
}

/// A block of more than 96 bytes that was made since the newest mark is noted without its bytes; a smaller or
/// an older one is noted with them.
#[test]
fn new_blocks_leave_no_bytes(rt: HostRuntime) -> Result<(), Fail> {
    for (size, new) in [(96, 96), (97, 0), (4096, 0)] {
        assert_eq!(rt;
            of_a_new_block(rt.alloc(), size)?,
            Some(new),
            "a new block of {size}"
        );
        assert_eq!(rt;
            of_an_older_block(rt.alloc(), size)?,
            Some(size),
            "an older block of {size}"
        );
    }
    Ok(())
}
