use crate::{Cpu, StepOut, step};
use fw_types::Cause;
use guest_memory::address_map::EXIT;
use guest_memory::{GuestMem, Memory, SegKind};
use std::process::Abort;
use std::test::Fail;

/// The code, data, a table that can't be written, and the top of the stack.
const CODE: u64 = 0x200_0000;

const DATA: u64 = 0x1000;

const TABLE: u64 = 0x3000;

const TOP: u64 = 0x8010;

/// Registers and memory.
#[derive(Drop)]
struct Machine {
    cpu: Cpu,
    memory: Memory,
}

/// A machine with one instruction, R1 and R2, and 0x20 bytes of zeros at each place.
fn machine_with(rt: &impl AllocGlobal, code: &[u8], r1: u64, r2: u64) -> Result<Machine, Fail> {
    let alloc = rt.alloc();
    let mut memory = Memory::new(alloc);
    memory.map(CODE, Vec::from_slice(alloc, code)?, SegKind::Image)?;
    memory.map(DATA, vec![in alloc; 0; 0x20]?, SegKind::Pool)?;
    memory.map(TABLE, vec![in alloc; 0; 0x20]?, SegKind::Table)?;
    memory.map(TOP - 0x10, vec![in alloc; 0; 0x20]?, SegKind::Stack)?;
    let cpu = Cpu {
        r: [TOP, r1, r2, 0, 0, 0, 0, 0],
        flags: 2,
        ip: CODE,
    };
    Ok(Machine { cpu, memory })
}

/// R1 after an instruction that is followed by the next one and changes no other register.
fn r1_after(rt: &(impl AllocGlobal + Abort), code: &[u8], r1: u64, r2: u64) -> Result<u64, Fail> {
    let mut machine = machine_with(rt, code, r1, r2)?;
    assert_eq!(rt; step(&mut machine.cpu, &mut machine.memory)?, StepOut::Next);
    let value = machine.cpu.r[1];
    assert_eq!(rt; machine.cpu.r, [TOP, value, r2, 0, 0, 0, 0, 0]);
    assert_eq!(rt; machine.cpu.ip, CODE.wrapping_add(code.len() as u64));
    Ok(value)
}

/// The 8 bytes at 0x1000 after an instruction on `a` there and `b` at 0x1008, by R1 and R2.
fn memory_after(rt: &(impl AllocGlobal + Abort), code: &[u8], a: u64, b: u64) -> Result<u64, Fail> {
    let mut machine = machine_with(rt, code, DATA, DATA + 8)?;
    machine.memory.write(DATA, 8, a)?;
    machine.memory.write(DATA + 8, 8, b)?;
    assert_eq!(rt; step(&mut machine.cpu, &mut machine.memory)?, StepOut::Next);
    assert_eq!(rt; machine.cpu.r, [TOP, DATA, DATA + 8, 0, 0, 0, 0, 0]);
    Ok(machine.memory.read(DATA, 8).unwrap_or(0))
}

const ONES: u64 = 0xFFFF_FFFF_FFFF_FFFF;

const MINUS_7: u64 = 0xFFFF_FFFF_FFFF_FFF9;

const LEAST: u64 = 0x8000_0000_0000_0000;

/// An opcode, operand 1, operand 2, and the results of 32 and of 64 bits.
#[test]
fn arithmetic(rt: HostRuntime) -> Result<(), Fail> {
    let vectors: [(u8, u64, u64, u64, u64); 23] = [
        // NOT, NEG
        (0x0A, 0, 0x1_0000_0003, 0xFFFF_FFFC, 0xFFFF_FFFE_FFFF_FFFC),
        (0x0B, 0, 0x1_0000_0003, 0xFFFF_FFFD, 0xFFFF_FFFE_FFFF_FFFD),
        // ADD, SUB, MUL, MULU
        (0x0C, ONES, 1, 0, 0),
        (0x0D, 0x1_0000_0000, 1, 0xFFFF_FFFF, 0xFFFF_FFFF),
        (0x0E, MINUS_7, 5, 0xFFFF_FFDD, 0xFFFF_FFFF_FFFF_FFDD),
        (0x0F, 0x1_0000_0001, 0x1_0000_0001, 1, 0x2_0000_0001),
        // DIV, toward zero, and of the least number by -1
        (0x10, MINUS_7, 2, 0xFFFF_FFFD, 0xFFFF_FFFF_FFFF_FFFD),
        (0x10, LEAST, ONES, 0, LEAST),
        (0x10, 0x8000_0000, ONES, 0x8000_0000, 0xFFFF_FFFF_8000_0000),
        // DIVU
        (0x11, ONES, 2, 0x7FFF_FFFF, 0x7FFF_FFFF_FFFF_FFFF),
        // MOD, with the sign of operand 1, and of the least number by -1; MODU
        (0x12, MINUS_7, 2, 0xFFFF_FFFF, ONES),
        (0x12, 7, 0xFFFF_FFFF_FFFF_FFFE, 1, 1),
        (0x12, LEAST, ONES, 0, 0),
        (0x13, ONES, 10, 5, 5),
        // AND, OR, XOR
        (
            0x14,
            0xF0F0_F0F0_F0F0_F0F0,
            0xFF00_FF00_FF00_FF00,
            0xF000_F000,
            0xF000_F000_F000_F000,
        ),
        (
            0x15,
            0xF0F0_F0F0_F0F0_F0F0,
            0xFF00_FF00_FF00_FF00,
            0xFFF0_FFF0,
            0xFFF0_FFF0_FFF0_FFF0,
        ),
        (
            0x16,
            0xF0F0_F0F0_F0F0_F0F0,
            0xFF00_FF00_FF00_FF00,
            0x0FF0_0FF0,
            0x0FF0_0FF0_0FF0_0FF0,
        ),
        // SHL, SHR, ASHR, whose counts are modulo 32 and 64
        (0x17, 1, 33, 2, 0x2_0000_0000),
        (0x18, 0x8000_0000_4000_0000, 36, 0x0400_0000, 0x0800_0000),
        (
            0x19,
            0x8000_0000_C000_0000,
            36,
            0xFC00_0000,
            0xFFFF_FFFF_F800_0000,
        ),
        // EXTNDB, EXTNDW, EXTNDD
        (0x1A, 0, 0x180, 0xFFFF_FF80, 0xFFFF_FFFF_FFFF_FF80),
        (0x1B, 0, 0x1_8000, 0xFFFF_8000, 0xFFFF_FFFF_FFFF_8000),
        (0x1C, 0, 0x1_8000_0000, 0x8000_0000, 0xFFFF_FFFF_8000_0000),
    ];
    for (op, a, b, of_32, of_64) in vectors {
        assert_eq!(rt; r1_after(&rt, &[op, 0x21], a, b)?, of_32);
        assert_eq!(rt; r1_after(&rt, &[op | 0x40, 0x21], a, b)?, of_64);
        // of 32 bits the upper half of the memory stays
        let upper = a & 0xFFFF_FFFF_0000_0000;
        assert_eq!(rt; memory_after(&rt, &[op, 0xA9], a, b)?, upper | of_32);
        assert_eq!(rt; memory_after(&rt, &[op | 0x40, 0xA9], a, b)?, of_64);
    }
    // ADD64 R1, R2(-1); ADD64 @R1, @R2(8), with an index of one natural unit
    assert_eq!(rt; r1_after(&rt, &[0xCC, 0x21, 0xFF, 0xFF], 5, 3)?, 7);
    assert_eq!(rt; memory_after(&rt, &[0xCC, 0xA9, 0x01, 0x10], 5, 3)?, 5);
    Ok(())
}

/// FLAGS after an instruction on R1 and R2.
fn flags_after(
    rt: &(impl AllocGlobal + Abort),
    code: &[u8],
    r1: u64,
    r2: u64,
) -> Result<u64, Fail> {
    let mut machine = machine_with(rt, code, r1, r2)?;
    machine.memory.write(DATA, 8, r1)?;
    machine.cpu.r[3] = DATA;
    assert_eq!(rt; step(&mut machine.cpu, &mut machine.memory)?, StepOut::Next);
    assert_eq!(rt; machine.cpu.r[1], r1);
    Ok(machine.cpu.flags)
}

/// Operands of CMP and CMPI, and C by 32 and by 64 bits.
#[test]
fn comparisons(rt: HostRuntime) -> Result<(), Fail> {
    let vectors: [(u8, u64, u8, u64, u64); 5] = [
        // equal, at most and at least as signed numbers, and as unsigned ones
        (0, 0x1_0000_0005, 5, 1, 0),
        (1, 0xFFFF_FFFF, 0, 1, 0),
        (2, 0xFFFF_FFFF, 0, 0, 1),
        (3, 0x1_0000_0000, 1, 1, 0),
        (4, 0x1_0000_0000, 1, 0, 1),
    ];
    for (relation, a, b, of_32, of_64) in vectors {
        let wide = u64::from(b);
        // CMP R1, R2; R3 points to R1's value
        assert_eq!(rt;
            flags_after(&rt, &[0x05 + relation, 0x21], a, wide)?,
            2 + of_32
        );
        assert_eq!(rt;
            flags_after(&rt, &[0x45 + relation, 0x21], a, wide)?,
            2 + of_64
        );
        // CMPI R1 and @R3
        assert_eq!(rt;
            flags_after(&rt, &[0x2D + relation, 0x01, b, 0], a, 0)?,
            2 + of_32
        );
        assert_eq!(rt;
            flags_after(&rt, &[0x6D + relation, 0x01, b, 0], a, 0)?,
            2 + of_64
        );
        assert_eq!(rt;
            flags_after(&rt, &[0x2D + relation, 0x0B, b, 0], a, 0)?,
            2 + of_32
        );
        assert_eq!(rt;
            flags_after(&rt, &[0x6D + relation, 0x0B, b, 0], a, 0)?,
            2 + of_64
        );
    }
    // CMP64eq R2, @R3; CMPI64deq R1, -1; CMPI64weq @R3(0), -1
    assert_eq!(rt; flags_after(&rt, &[0x45, 0xB2], 9, 9)?, 3);
    assert_eq!(rt;
        flags_after(&rt, &[0xED, 0x01, 0xFF, 0xFF, 0xFF, 0xFF], ONES, 0)?,
        3
    );
    assert_eq!(rt;
        flags_after(&rt, &[0x6D, 0x1B, 0x00, 0x00, 0xFF, 0xFF], ONES, 0)?,
        3
    );
    // LOADSP FLAGS, R1
    assert_eq!(rt; flags_after(&rt, &[0x29, 0x10], 0xFD, 0)?, 1);
    Ok(())
}

/// A move of R2, or of memory, to R1 or to memory.
#[test]
fn moves(rt: HostRuntime) -> Result<(), Fail> {
    let b = 0x8877_6655_4433_2211;
    let sizes: [(u8, u64, u64); 4] = [
        (0x1D, 0x11, 0xFFFF_FFFF_FFFF_FF11),
        (0x1E, 0x2211, 0xFFFF_FFFF_FFFF_2211),
        (0x1F, 0x4433_2211, 0xFFFF_FFFF_4433_2211),
        (0x20, b, b),
    ];
    for (op, register, memory) in sizes {
        // with indices of 2 and of 4 bytes
        assert_eq!(rt; r1_after(&rt, &[op, 0x21], ONES, b)?, register);
        assert_eq!(rt; memory_after(&rt, &[op, 0xA9], ONES, b)?, memory);
        assert_eq!(rt; r1_after(&rt, &[op + 4, 0x21], ONES, b)?, register);
        assert_eq!(rt; memory_after(&rt, &[op + 4, 0xA9], ONES, b)?, memory);
    }
    // MOVsnw, MOVsnd, MOVqq, MOVnw and MOVnd move 8 bytes
    for op in [0x25, 0x26, 0x28, 0x32, 0x33] {
        assert_eq!(rt; r1_after(&rt, &[op, 0x21], ONES, b)?, b);
        assert_eq!(rt; memory_after(&rt, &[op, 0xA9], ONES, b)?, b);
    }
    let registers: [(&[u8], u64); 11] = [
        // MOVqw R1, R2(-1): a negative index of one constant unit; MOVsnw R1, R2(-1), a number
        (&[0x60, 0x21, 0x01, 0x80], 4),
        (&[0x65, 0x21, 0xFF, 0xFF], 4),
        // MOVsnd R1, R2(-2), MOVnd R1, R2(8), MOVqq R1, R2(8)
        (&[0x66, 0x21, 0xFE, 0xFF, 0xFF, 0xFF], 3),
        (&[0x73, 0x21, 0x01, 0x00, 0x00, 0x10], 13),
        (
            &[0x68, 0x21, 0x01, 0x00, 0x00, 0x00, 0x00, 0x00, 0x00, 0x10],
            13,
        ),
        // MOVIbw, MOVIqw, MOVIdd of -1
        (&[0x77, 0x01, 0xFF, 0xFF], 0xFF),
        (&[0x77, 0x31, 0xFF, 0xFF], ONES),
        (&[0xB7, 0x21, 0xFF, 0xFF, 0xFF, 0xFF], 0xFFFF_FFFF),
        // MOVInw R1, (-8)
        (&[0x78, 0x01, 0x01, 0x90], 0xFFFF_FFFF_FFFF_FFF8),
        // MOVRELw R1, 4; STORESP R1, IP
        (&[0x79, 0x01, 0x04, 0x00], CODE + 8),
        (&[0x2A, 0x11], CODE + 2),
    ];
    for (code, value) in registers {
        assert_eq!(rt; r1_after(&rt, code, ONES, 5)?, value);
    }
    // MOVqw @R1, @R2(-8); MOVIww @R1(1), 0x1234; STORESP R1, FLAGS
    assert_eq!(rt; memory_after(&rt, &[0x60, 0xA9, 0x01, 0x90], 5, 3)?, 5);
    assert_eq!(rt;
        memory_after(&rt, &[0x77, 0x59, 0x01, 0x00, 0x34, 0x12], ONES, 3)?,
        0xFFFF_FFFF_FF12_34FF
    );
    assert_eq!(rt; r1_after(&rt, &[0x2A, 0x01], ONES, 5)?, 2);
    Ok(())
}

/// Code, R1, R1 after it, how far R0 is then above the top, and the 8 bytes below the top.
#[test]
fn stack(rt: HostRuntime) -> Result<(), Fail> {
    let vectors: [(&[u8], u64, u64, u64, u64); 10] = [
        // PUSH32, PUSH64, PUSHn of R1; the rest of the stack stays
        (
            &[0x2B, 0x01],
            0x1122_3344_5566_7788,
            0x1122_3344_5566_7788,
            0u64.wrapping_sub(4),
            0x5566_7788_0403_0201,
        ),
        (&[0x6B, 0x01], ONES, ONES, 0u64.wrapping_sub(8), ONES),
        (&[0x35, 0x01], ONES, ONES, 0u64.wrapping_sub(8), ONES),
        // PUSH64 R1(-1), and of R0 as it is before
        (&[0xEB, 0x01, 0xFF, 0xFF], 5, 5, 0u64.wrapping_sub(8), 4),
        (&[0x6B, 0x00], 5, 5, 0u64.wrapping_sub(8), TOP),
        // POP32 extends the sign; POP64, POPn
        (
            &[0x2C, 0x01],
            0,
            0xFFFF_FFFF_8887_8685,
            4,
            0x0807_0605_0403_0201,
        ),
        (
            &[0x6C, 0x01],
            0,
            0x8C8B_8A89_8887_8685,
            8,
            0x0807_0605_0403_0201,
        ),
        (
            &[0x36, 0x01],
            0,
            0x8C8B_8A89_8887_8685,
            8,
            0x0807_0605_0403_0201,
        ),
        // POP64 R1(2), and POP64 @R0, after R0 has risen
        (
            &[0xEC, 0x01, 0x02, 0x00],
            0,
            0x8C8B_8A89_8887_8687,
            8,
            0x0807_0605_0403_0201,
        ),
        (&[0x6C, 0x08], 7, 7, 8, 0x0807_0605_0403_0201),
    ];
    for (code, r1, after, risen, below) in vectors {
        let mut machine = machine_with(&rt, code, r1, 0)?;
        machine.memory.write(TOP - 8, 8, 0x0807_0605_0403_0201)?;
        machine.memory.write(TOP, 8, 0x8C8B_8A89_8887_8685)?;
        assert_eq!(rt; step(&mut machine.cpu, &mut machine.memory)?, StepOut::Next);
        assert_eq!(rt; machine.cpu.r[1], after);
        assert_eq!(rt; machine.cpu.r[0], TOP.wrapping_add(risen));
        assert_eq!(rt; machine.memory.read(TOP - 8, 8), Some(below));
    }
    Ok(())
}

/// Code, FLAGS, R1, what it comes to, and IP and R0 after it.
#[test]
fn jumps(rt: HostRuntime) -> Result<(), Fail> {
    let vectors: [(&[u8], u64, u64, StepOut, u64, u64); 21] = [
        // JMP8 to itself, JMP8cc and JMP8cs
        (&[0x02, 0xFF], 0, 0, StepOut::Next, CODE, TOP),
        (&[0x82, 0x02], 0, 0, StepOut::Next, CODE + 6, TOP),
        (&[0x82, 0x02], 1, 0, StepOut::Next, CODE + 2, TOP),
        (&[0xC2, 0x02], 1, 0, StepOut::Next, CODE + 6, TOP),
        // JMP32a R1, JMP32 R1, JMP32a @R1, JMP32 R0(4)
        (&[0x01, 0x01], 0, 0x4000, StepOut::Next, 0x4000, TOP),
        (&[0x01, 0x11], 0, 4, StepOut::Next, CODE + 6, TOP),
        (&[0x01, 0x09], 0, DATA, StepOut::Next, 0x4002, TOP),
        (
            &[0x81, 0x10, 4, 0, 0, 0],
            0,
            0,
            StepOut::Next,
            CODE + 10,
            TOP,
        ),
        // JMP64 -2
        (
            &[0xC1, 0x10, 0xFE, 0xFF, 0xFF, 0xFF, 0xFF, 0xFF, 0xFF, 0xFF],
            0,
            0,
            StepOut::Next,
            CODE + 8,
            TOP,
        ),
        // an odd target; one that can't be read; and the same if C is not as wanted
        (
            &[0x01, 0x01],
            0,
            0x4001,
            StepOut::Trap(Cause::Align),
            CODE,
            TOP,
        ),
        (
            &[0x01, 0x09],
            0,
            0x9000,
            StepOut::Trap(Cause::Memory),
            CODE,
            TOP,
        ),
        (&[0x01, 0xC9], 0, 0x9000, StepOut::Next, CODE + 2, TOP),
        // CALL32a R1, CALL32EXa R1, also to an odd address
        (&[0x03, 0x01], 0, 0x4000, StepOut::Next, 0x4000, TOP - 16),
        (
            &[0x03, 0x01],
            0,
            0x4001,
            StepOut::Trap(Cause::Align),
            CODE,
            TOP,
        ),
        (
            &[0x03, 0x21],
            0,
            0x4000,
            StepOut::Native(0x4000),
            CODE + 2,
            TOP,
        ),
        (
            &[0x03, 0x21],
            0,
            0x4001,
            StepOut::Native(0x4001),
            CODE + 2,
            TOP,
        ),
        // RET
        (&[0x04, 0x00], 0, 0, StepOut::Next, 0x4004, TOP + 16),
        // BREAK 1, 3, 5 and 0
        (&[0x00, 0x01], 0, 0, StepOut::Next, CODE + 2, TOP),
        (&[0x00, 0x03], 0, 0, StepOut::Next, CODE + 2, TOP),
        (&[0x00, 0x05], 0, 0, StepOut::MakeThunk(0x77), CODE + 2, TOP),
        (&[0x00, 0x00], 0, 0, StepOut::Trap(Cause::Break), CODE, TOP),
    ];
    for (code, flags, r1, out, ip, r0) in vectors {
        let mut machine = machine_with(&rt, code, r1, 0)?;
        machine.cpu.flags = flags;
        machine.cpu.r[7] = 0x77;
        machine.memory.write(DATA, 8, 0x4002)?;
        machine.memory.write(TOP, 8, 0x4004)?;
        assert_eq!(rt; step(&mut machine.cpu, &mut machine.memory)?, out);
        assert_eq!(rt; (machine.cpu.ip, machine.cpu.r[0]), (ip, r0));
        // CALL puts the address after itself there
        let put = if r0 == TOP - 16 { CODE + 2 } else { 0 };
        assert_eq!(rt; machine.memory.read(TOP - 16, 8), Some(put));
    }
    Ok(())
}

/// Code, R1, R2 and the cause. Nothing has changed then.
#[test]
fn traps(rt: HostRuntime) -> Result<(), Fail> {
    let vectors: [(&[u8], u64, u64, Cause); 12] = [
        // DIV, DIVU, MOD, MODU by 0, also into memory that can't be written
        (&[0x50, 0x21], LEAST, 0, Cause::Divide),
        (&[0x11, 0x21], 1, 0x1_0000_0000, Cause::Divide),
        (&[0x52, 0x21], 1, 0, Cause::Divide),
        (&[0x13, 0x29], TABLE, 0, Cause::Divide),
        // ADD and NOT into a table, ADD of what can't be read
        (&[0x4C, 0x29], TABLE, 1, Cause::Memory),
        (&[0x4A, 0x29], TABLE, 1, Cause::Memory),
        (&[0x4C, 0xA1], 1, DATA + 0x1C, Cause::Memory),
        // an index on a register, no such opcode, and the second byte missing
        (&[0xA0, 0x21, 0, 0], 0, 0, Cause::Illegal),
        (&[0x27, 0x00], 0, 0, Cause::Illegal),
        (&[0x4C], 0, 0, Cause::Fetch),
        // an immediate that ends after the image
        (&[0x77, 0x31, 0x00], 0, 0, Cause::Fetch),
        (&[], 0, 0, Cause::Fetch),
    ];
    for (code, r1, r2, cause) in vectors {
        let mut machine = machine_with(&rt, code, r1, r2)?;
        let before = machine.cpu;
        assert_eq!(rt;
            step(&mut machine.cpu, &mut machine.memory)?,
            StepOut::Trap(cause)
        );
        assert!(rt; machine.cpu == before);
        assert_eq!(rt; machine.memory.read(TABLE, 8), Some(0));
    }
    // the exit address is no trap
    let mut machine = machine_with(&rt, &[], 0, 0)?;
    machine.cpu.ip = EXIT;
    assert_eq!(rt; step(&mut machine.cpu, &mut machine.memory)?, StepOut::Done);
    Ok(())
}
