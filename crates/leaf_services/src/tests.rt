//! Blocks of the pool, CopyMem and SetMem, and the task priority level.

use crate::steps::{
    Answer, BAD, DONE, FULL, INVALID, PLACE, STACK_END, Step, TABLE, TRAPPED, from_start,
    from_units,
};
use service_thunks::Service;
use std::test::Fail;

/// The first block lies after the 96 bytes of the loaded image block.
#[test]
fn first_block(rt: HostRuntime) -> Result<(), Fail> {
    let steps = [
        Step::Writes(PLACE, 0x1234),
        Step::Calls(Service::AllocatePool, &[4, 24, PLACE], DONE),
        Step::Words(PLACE, &[0x1_0000_0060]),
        Step::Left(98),
        // the block has just its bytes
        Step::Words(0x1_0000_0070, &[0]),
        Step::NoWord(0x1_0000_0071),
    ];
    from_start(&rt, &steps)
}

/// Blocks of no bytes, of the most bytes, and of one byte more; and what each costs.
#[test]
fn sizes_of_blocks(rt: HostRuntime) -> Result<(), Fail> {
    let steps = [
        Step::Allocates(0, DONE, 0x1_0000_0060, 1),
        // a block of no bytes still takes 16 addresses
        Step::Allocates(1, DONE, 0x1_0000_0070, 2),
        Step::Allocates(64, DONE, 0x1_0000_0080, 2),
        Step::Allocates(65, DONE, 0x1_0000_00c0, 3),
        // the pool has the loaded image block too
        Step::Allocates(67_108_864, FULL, 7, 1_048_577),
        Step::Allocates(67_108_865, FULL, 7, 1),
        Step::Allocates(u64::MAX, FULL, 7, 1),
    ];
    from_units(&rt, 3_000_000, &steps)
}

/// Places at which the address of a block can't be stored.
#[test]
fn places_of_blocks(rt: HostRuntime) -> Result<(), Fail> {
    let steps = [
        Step::Calls(Service::AllocatePool, &[0, 24, 0], INVALID),
        Step::Calls(Service::AllocatePool, &[0, 67_108_865, 0], INVALID),
        // in a table, in no segment, and with only 7 bytes of the stack left
        Step::Calls(Service::AllocatePool, &[0, 67_108_865, TABLE], TRAPPED),
        Step::Calls(Service::AllocatePool, &[0, 24, BAD], TRAPPED),
        Step::Calls(Service::AllocatePool, &[0, 24, STACK_END - 7], TRAPPED),
        // no block was made
        Step::Calls(Service::AllocatePool, &[0, 1, PLACE], DONE),
        Step::Words(PLACE, &[0x1_0000_0060]),
    ];
    from_start(&rt, &steps)
}

/// Which addresses FreePool accepts.
#[test]
fn freed_blocks(rt: HostRuntime) -> Result<(), Fail> {
    let steps = [
        Step::Calls(Service::AllocatePool, &[0, 24, PLACE], DONE),
        // the loaded image block, the image, and a block's second byte
        Step::Spends(Service::FreePool, &[0x1_0000_0000], INVALID, 4),
        Step::Spends(Service::FreePool, &[0x200_0000], INVALID, 4),
        Step::Spends(Service::FreePool, &[0x1_0000_0061], INVALID, 4),
        Step::Spends(Service::FreePool, &[0], INVALID, 4),
        Step::Spends(Service::FreePool, &[0x1_0000_0060], DONE, 4),
        Step::Spends(Service::FreePool, &[0x1_0000_0060], INVALID, 4),
        Step::NoByte(0x1_0000_0060),
    ];
    from_start(&rt, &steps)
}

/// Bytes are copied to a place after their own, and to one before it.
#[test]
fn overlapping_copies(rt: HostRuntime) -> Result<(), Fail> {
    let steps = [
        Step::Writes(PLACE, 0x0807_0605_0403_0201),
        Step::Writes(PLACE + 8, 0x1817_1615_1413_1211),
        Step::Calls(Service::CopyMem, &[PLACE + 3, PLACE, 9], DONE),
        Step::Words(PLACE, &[0x0504_0302_0103_0201, 0x1817_1615_1108_0706]),
        Step::Left(97),
        Step::Calls(Service::CopyMem, &[PLACE, PLACE + 2, 8], DONE),
        Step::Words(PLACE, &[0x0706_0504_0302_0103, 0x1817_1615_1108_0706]),
        Step::Left(95),
    ];
    from_start(&rt, &steps)
}

/// A copy of 3 MiB, from one block to the next.
#[test]
fn long_copies(rt: HostRuntime) -> Result<(), Fail> {
    let steps = [
        Step::Allocates(3_145_728, DONE, 0x1_0000_0060, 49_153),
        Step::Allocates(3_145_728, DONE, 0x1_0030_0060, 49_153),
        Step::Writes(0x1_0000_0060, 0x0807_0605_0403_0201),
        Step::Writes(0x1_0030_0058, 0x1817_1615_1413_1211),
        Step::Spends(
            Service::CopyMem,
            &[0x1_0030_0060, 0x1_0000_0060, 3_145_728],
            DONE,
            393_217,
        ),
        Step::Words(0x1_0030_0060, &[0x0807_0605_0403_0201, 0]),
        Step::Words(0x1_0060_0058, &[0x1817_1615_1413_1211]),
    ];
    from_units(&rt, 3_000_000, &steps)
}

/// Copies from a table and to one, and of no bytes.
#[test]
fn ends_of_copies(rt: HostRuntime) -> Result<(), Fail> {
    let steps = [
        Step::Calls(Service::CopyMem, &[PLACE, TABLE, 4], DONE),
        Step::Calls(Service::CopyMem, &[TABLE, PLACE, 1], TRAPPED),
        Step::Calls(Service::CopyMem, &[PLACE, TABLE, 129], TRAPPED),
        Step::Calls(Service::CopyMem, &[STACK_END - 3, PLACE, 4], TRAPPED),
        Step::Calls(Service::CopyMem, &[PLACE, BAD, 1], TRAPPED),
        // neither place is looked at
        Step::Calls(Service::CopyMem, &[TABLE, BAD, 0], DONE),
        Step::Calls(Service::CopyMem, &[0, 0, 0], DONE),
        Step::Words(PLACE, &[0x2049_4249]),
        Step::Half(TABLE, 0x2049_4249),
    ];
    from_start(&rt, &steps)
}

/// The last argument of SetMem.
const BYTE: u64 = 0x1234_56ab;

/// SetMem: its byte is the lowest 8 bits of the argument.
#[test]
fn filled_bytes(rt: HostRuntime) -> Result<(), Fail> {
    let steps = [
        Step::Spends(Service::SetMem, &[TABLE, 1, BYTE], TRAPPED, 2),
        Step::Spends(Service::SetMem, &[PLACE + 1, 3, BYTE], DONE, 2),
        Step::Spends(Service::SetMem, &[0x200_0000, 4, BYTE], DONE, 2),
        Step::Spends(Service::SetMem, &[0x200_0001, 4, BYTE], TRAPPED, 2),
        Step::Spends(Service::SetMem, &[STACK_END - 9, 9, BYTE], DONE, 3),
        Step::Spends(Service::SetMem, &[TABLE, 0, BYTE], DONE, 1),
        Step::Words(PLACE, &[0xabab_ab00]),
        Step::Half(0x200_0000, 0xabab_abab),
        Step::Byte(TABLE, 0x49),
        Step::Byte(STACK_END - 10, 0),
    ];
    from_start(&rt, &steps)
}

/// The task priority level: what changes it, and what is answered.
#[test]
fn levels(rt: HostRuntime) -> Result<(), Fail> {
    let steps = [
        Step::Calls(Service::RaiseTpl, &[8], Answer::Value(4)),
        Step::Level(8),
        Step::Calls(Service::RaiseTpl, &[7], Answer::Value(8)),
        Step::Level(8),
        Step::Calls(Service::RaiseTpl, &[8], Answer::Value(8)),
        Step::Level(8),
        Step::Calls(Service::RaiseTpl, &[31], Answer::Value(8)),
        Step::Level(31),
        Step::Calls(Service::RaiseTpl, &[32], Answer::Value(31)),
        Step::Level(31),
        // all 64 bits count
        Step::Calls(Service::RestoreTpl, &[0x1_0000_0004], Answer::Value(0)),
        Step::Level(31),
        Step::Calls(Service::RestoreTpl, &[16], Answer::Value(0)),
        Step::Level(16),
        Step::Calls(Service::RaiseTpl, &[0x1_0000_0011], Answer::Value(16)),
        Step::Level(16),
        Step::Calls(Service::RestoreTpl, &[17], Answer::Value(0)),
        Step::Level(16),
        Step::Left(91),
    ];
    from_start(&rt, &steps)
}
