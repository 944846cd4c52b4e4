use crate::{DecodeRefusal, Instr, NotEncodable, decode, encode, form_of, natural};
use std::process::Abort;

#[test]
fn indices_of_two_bytes(rt: HostRuntime) {
    let vectors: [(u16, i64); 11] = [
        // 4 constant units and 8 natural ones, negative.
        (0xA048, -68),
        (0x1003, 24),
        (0x0018, 24),
        (0x0FFF, 4095),
        (0x8000, 0),
        (0x8001, -1),
        // A width of 5 leaves two constant bits.
        (0x5FFF, 8187),
        (0x6FFF, 32760),
        // A width of 7 would be 14 bits of 12.
        (0x7001, 8),
        (0x7FFF, 32760),
        (0xFFFF, -32760),
    ];
    for (raw, value) in vectors {
        assert_eq!(rt; natural(u64::from(raw), 2), value);
    }
}

#[test]
fn indices_of_four_bytes(rt: HostRuntime) {
    let vectors: [(u32, i64); 9] = [
        (0x0FFF_FFFF, 268_435_455),
        (0x1000_0025, 42),
        (0x9000_0025, -42),
        (0x2000_0100, 1),
        (0x60FF_FFFF, 134_217_720),
        (0x6100_0000, 1),
        // A width of 7 is all 28 bits.
        (0x7000_4000, 131_072),
        (0x7FFF_FFFF, 2_147_483_640),
        (0xFFFF_FFFF, -2_147_483_640),
    ];
    for (raw, value) in vectors {
        assert_eq!(rt; natural(u64::from(raw), 4), value);
    }
}

#[test]
fn indices_of_eight_bytes(rt: HostRuntime) {
    let vectors: [(u64, i64); 8] = [
        (0x0FFF_FFFF_FFFF_FFFF, 1_152_921_504_606_846_975),
        (0x8FFF_FFFF_FFFF_FFFF, -1_152_921_504_606_846_975),
        (0x1000_0000_0000_0105, 41),
        (0x9000_0000_0000_0105, -41),
        (0x3000_0000_0001_0000, 524_288),
        // A width of 7 leaves four constant bits.
        (0x7100_0000_0000_0002, 17),
        (0x7FFF_FFFF_FFFF_FFFF, 576_460_752_303_423_495),
        (0xFFFF_FFFF_FFFF_FFFF, -576_460_752_303_423_495),
    ];
    for (raw, value) in vectors {
        assert_eq!(rt; natural(raw, 8), value);
    }
}

#[test]
fn refusals_of_decode(rt: HostRuntime) {
    assert_eq!(rt; decode(&[]), Err(DecodeRefusal::Short));
    assert_eq!(rt; decode(&[0x27]), Err(DecodeRefusal::Short));
    assert_eq!(rt; decode(&[0x27, 0x00]), Err(DecodeRefusal::Illegal));
    assert_eq!(rt; decode(&[0x41, 0x00]), Err(DecodeRefusal::Illegal));
    assert_eq!(rt; decode(&[0x77]), Err(DecodeRefusal::Short));
    assert_eq!(rt; decode(&[0x77, 0x37, 0x00]), Err(DecodeRefusal::Short));
    // An index of operand 1, although operand 1 is a register.
    assert_eq!(rt;
        decode(&[0x9D, 0x21, 0x00, 0x00]),
        Err(DecodeRefusal::Illegal)
    );
}

fn instr(op: u8, mods: u8, operands: u8, first: u64, second: u64) -> Instr {
    Instr {
        op,
        mods,
        operands,
        first,
        second,
    }
}

/// Bytes, their first two with the ignored bits 0, and the instruction.
#[test]
fn instructions(rt: HostRuntime) {
    let vectors: [(&[u8], [u8; 2], Instr); 9] = [
        // BREAK 3 and RET, with bits 7:6 set
        (&[0xC0, 0x03], [0x00, 0x03], instr(0x00, 0, 0x03, 0, 0)),
        (&[0xC4, 0xFF], [0x04, 0x00], instr(0x04, 0, 0x00, 0, 0)),
        // JMP8cc
        (&[0x42, 0xFE], [0x42, 0xFE], instr(0x02, 1, 0xFE, 0, 0)),
        // CALL32EX @R2(0x12345678)
        (
            &[0x83, 0x2A, 0x78, 0x56, 0x34, 0x12],
            [0x83, 0x2A],
            instr(0x03, 2, 0x2A, 0x1234_5678, 0),
        ),
        // JMP64 with every bit of the second byte set
        (
            &[0xC1, 0xFF, 0x08, 0x07, 0x06, 0x05, 0x04, 0x03, 0x02, 0x01],
            [0xC1, 0xD0],
            instr(0x01, 3, 0xD0, 0, 0x0102_0304_0506_0708),
        ),
        // CMP64eq R7, @R1(1), with bit 3 set
        (
            &[0xC5, 0x9F, 0x01, 0x00],
            [0xC5, 0x97],
            instr(0x05, 3, 0x97, 0, 1),
        ),
        // MOVqw @R1(0x1234), @R2(5)
        (
            &[0xE0, 0xA9, 0x34, 0x12, 0x05, 0x00],
            [0xE0, 0xA9],
            instr(0x20, 3, 0xA9, 0x1234, 5),
        ),
        // LOADSP FLAGS, R1, with the bits of both indirections set
        (&[0xE9, 0x98], [0x29, 0x10], instr(0x29, 0, 0x10, 0, 0)),
        // PUSHn R7 0x0002, with m6 and the bits of an operand 2 set
        (
            &[0xF5, 0xF7, 0x02, 0x00],
            [0xB5, 0x07],
            instr(0x35, 2, 0x07, 2, 0),
        ),
    ];
    for (bytes, head, instr) in vectors {
        check_instruction(&rt, bytes, head, instr);
    }
}

#[test]
fn instructions_with_immediates(rt: HostRuntime) {
    let vectors: [(&[u8], [u8; 2], Instr); 6] = [
        // MOVIqw R7, 0
        (
            &[0x77, 0x37, 0x00, 0x00],
            [0x77, 0x37],
            instr(0x37, 1, 0x37, 0, 0),
        ),
        // CMPI32deq @R0(0x0010), 0x01020304, with bits 7:5 set
        (
            &[0xAD, 0xF8, 0x10, 0x00, 0x04, 0x03, 0x02, 0x01],
            [0xAD, 0x18],
            instr(0x2D, 2, 0x18, 0x10, 0x0102_0304),
        ),
        // MOVIqq @R2(0x1003), 0x0807060504030201, with bit 7 set
        (
            &[
                0xF7, 0xFA, 0x03, 0x10, 0x01, 0x02, 0x03, 0x04, 0x05, 0x06, 0x07, 0x08,
            ],
            [0xF7, 0x7A],
            instr(0x37, 3, 0x7A, 0x1003, 0x0807_0605_0403_0201),
        ),
        // MOVRELd R1, -4, with bits 7, 5 and 4 set
        (
            &[0xB9, 0xB1, 0xFC, 0xFF, 0xFF, 0xFF],
            [0xB9, 0x01],
            instr(0x39, 2, 0x01, 0, 0xFFFF_FFFC),
        ),
        // MOVqq R1, R2(0x0102030405060708)
        (
            &[0x68, 0x21, 0x08, 0x07, 0x06, 0x05, 0x04, 0x03, 0x02, 0x01],
            [0x68, 0x21],
            instr(0x28, 1, 0x21, 0, 0x0102_0304_0506_0708),
        ),
        // MOVqq @R1(1), @R2(2)
        (
            &[
                0xE8, 0xA9, 0x01, 0x00, 0x00, 0x00, 0x00, 0x00, 0x00, 0x00, 0x02, 0x00, 0x00, 0x00,
                0x00, 0x00, 0x00, 0x00,
            ],
            [0xE8, 0xA9],
            instr(0x28, 3, 0xA9, 1, 2),
        ),
    ];
    for (bytes, head, instr) in vectors {
        check_instruction(&rt, bytes, head, instr);
    }
}

fn check_instruction(rt: &impl Abort, bytes: &[u8], head: [u8; 2], instr: Instr) {
    let len = bytes.len();
    assert!(rt; len >= 2 && len <= 18);
    assert_eq!(rt; decode(bytes), Ok((instr, len as u8)));
    let (written, size) = encode(&instr).expect(rt, "an instruction");
    assert_eq!(rt; size, len as u8);
    assert_eq!(rt; &written[..2], head.as_slice());
    assert_eq!(rt; &written[2..len], &bytes[2..]);
}

#[test]
fn refusals_of_encode(rt: HostRuntime) {
    let refused = [
        // an opcode with no row, and numbers that the first byte has no room for
        instr(0x27, 0, 0x00, 0, 0),
        instr(0x40, 0, 0x00, 0, 0),
        instr(0x04, 4, 0x00, 0, 0),
        // a 64-bit JMP without data, and an index on a register
        instr(0x01, 1, 0x00, 0, 0),
        instr(0x20, 2, 0x21, 0, 0),
        // ignored bits
        instr(0x04, 0, 0x01, 0, 0),
        instr(0x05, 1, 0x08, 0, 0),
        instr(0x01, 3, 0xD8, 0, 0),
        instr(0x35, 3, 0x07, 0, 0),
        // parts that do not fit
        instr(0x20, 2, 0x29, 0x1_0000, 0),
        instr(0x20, 2, 0x29, 0, 1),
        instr(0x37, 1, 0x30, 0, 0x1_0000),
    ];
    for instr in refused {
        assert_eq!(rt; encode(&instr), Err(NotEncodable));
    }
    assert!(rt; form_of(0x3A, 0, 0x00).is_none());
}

/// Every first two bytes, with zeros after them.
#[test]
fn all_first_two_bytes(rt: HostRuntime) {
    let mut legal: u32 = 0;
    let mut illegal: u32 = 0;
    let mut lengths: u32 = 0;
    for word in 0..=u16::MAX {
        let mut bytes = [0; 18];
        bytes[0] = (word % 256) as u8;
        bytes[1] = (word / 256) as u8;
        match decode(&bytes) {
            Ok((_, len)) => {
                legal = legal.wrapping_add(1);
                lengths = lengths.wrapping_add(u32::from(len));
            }
            Err(DecodeRefusal::Illegal) => illegal = illegal.wrapping_add(1),
            Err(DecodeRefusal::Short) => {}
        }
    }
    assert_eq!(rt; (legal, illegal, lengths), (49_216, 16_320, 184_704));
}
