ghost use Rattle.std.specs.Prelude.{◌≡◌, bytes_eq, find, map, option_map};
ghost use Rattle.ebc_names.specs.Names.{goes_by, name_by, name_of, row_name, names};

use crate::slots::{Bits, Pattern, Side, Slot, Suffix};
use ebc_decode::{Instr, Size};

/// A row of the table of names.
#[derive(Clone, Copy, Debug)]
pub struct NameRow {
    pub text: &'static str,
    pub pattern: Pattern,
}

/// Just a register, which is always direct.
const DIRECT_1: Option<Slot> = Some(Slot::Register {
    side: Side::One,
    shown_by: Bits {
        mods: 0,
        operands: 0,
    },
    size: Size::Word,
    direct: Suffix::Nothing,
    indirect: None,
});

const DIRECT_2: Option<Slot> = Some(Slot::Register {
    side: Side::Two,
    shown_by: Bits {
        mods: 0,
        operands: 0,
    },
    size: Size::Word,
    direct: Suffix::Nothing,
    indirect: None,
});

/// Operand 1 with no index.
const PLAIN_1: Option<Slot> = Some(Slot::Register {
    side: Side::One,
    shown_by: Bits {
        mods: 0,
        operands: 0,
    },
    size: Size::Word,
    direct: Suffix::Nothing,
    indirect: Some(Suffix::Nothing),
});

/// Two bytes of data by m7: a signed number if direct, an index if indirect.
const DATA_1: Option<Slot> = Some(Slot::Register {
    side: Side::One,
    shown_by: Bits {
        mods: 2,
        operands: 0,
    },
    size: Size::Word,
    direct: Suffix::Signed,
    indirect: Some(Suffix::Index),
});

const DATA_2: Option<Slot> = Some(Slot::Register {
    side: Side::Two,
    shown_by: Bits {
        mods: 2,
        operands: 0,
    },
    size: Size::Word,
    direct: Suffix::Signed,
    indirect: Some(Suffix::Index),
});

/// Operand 1 of a move, with an index by m7 only if it is indirect.
const INDEX_1_W: Option<Slot> = Some(Slot::Register {
    side: Side::One,
    shown_by: Bits {
        mods: 2,
        operands: 0,
    },
    size: Size::Word,
    direct: Suffix::Nothing,
    indirect: Some(Suffix::Index),
});

const INDEX_1_D: Option<Slot> = Some(Slot::Register {
    side: Side::One,
    shown_by: Bits {
        mods: 2,
        operands: 0,
    },
    size: Size::Doubleword,
    direct: Suffix::Nothing,
    indirect: Some(Suffix::Index),
});

const INDEX_1_Q: Option<Slot> = Some(Slot::Register {
    side: Side::One,
    shown_by: Bits {
        mods: 2,
        operands: 0,
    },
    size: Size::Quadword,
    direct: Suffix::Nothing,
    indirect: Some(Suffix::Index),
});

/// Operand 2 of a move, with an index by m6.
const INDEX_2_W: Option<Slot> = Some(Slot::Register {
    side: Side::Two,
    shown_by: Bits {
        mods: 1,
        operands: 0,
    },
    size: Size::Word,
    direct: Suffix::Index,
    indirect: Some(Suffix::Index),
});

const INDEX_2_D: Option<Slot> = Some(Slot::Register {
    side: Side::Two,
    shown_by: Bits {
        mods: 1,
        operands: 0,
    },
    size: Size::Doubleword,
    direct: Suffix::Index,
    indirect: Some(Suffix::Index),
});

const INDEX_2_Q: Option<Slot> = Some(Slot::Register {
    side: Side::Two,
    shown_by: Bits {
        mods: 1,
        operands: 0,
    },
    size: Size::Quadword,
    direct: Suffix::Index,
    indirect: Some(Suffix::Index),
});

/// Operand 2 of a move, with a signed number by m6 if direct and an index if indirect.
const SIGNED_2_W: Option<Slot> = Some(Slot::Register {
    side: Side::Two,
    shown_by: Bits {
        mods: 1,
        operands: 0,
    },
    size: Size::Word,
    direct: Suffix::Signed,
    indirect: Some(Suffix::Index),
});

const SIGNED_2_D: Option<Slot> = Some(Slot::Register {
    side: Side::Two,
    shown_by: Bits {
        mods: 1,
        operands: 0,
    },
    size: Size::Doubleword,
    direct: Suffix::Signed,
    indirect: Some(Suffix::Index),
});

/// Operand 1 before an immediate, with an index only if it is indirect.
const COMPARE_1: Option<Slot> = Some(Slot::Register {
    side: Side::One,
    shown_by: Bits {
        mods: 0,
        operands: 0x10,
    },
    size: Size::Word,
    direct: Suffix::Nothing,
    indirect: Some(Suffix::Index),
});

const MOVE_1: Option<Slot> = Some(Slot::Register {
    side: Side::One,
    shown_by: Bits {
        mods: 0,
        operands: 0x40,
    },
    size: Size::Word,
    direct: Suffix::Nothing,
    indirect: Some(Suffix::Index),
});

/// The target of a 32-bit jump. A relative one may be a label.
const TARGET_32: Option<Slot> = Some(Slot::Register {
    side: Side::One,
    shown_by: Bits {
        mods: 2,
        operands: 0,
    },
    size: Size::Doubleword,
    direct: Suffix::Signed,
    indirect: Some(Suffix::Index),
});

const LABEL_TARGET_32: Option<Slot> = Some(Slot::Register {
    side: Side::One,
    shown_by: Bits {
        mods: 2,
        operands: 0,
    },
    size: Size::Doubleword,
    direct: Suffix::SignedOrLabel,
    indirect: Some(Suffix::Index),
});

/// An immediate.
const IMMEDIATE_W: Option<Slot> = Some(Slot::Immediate { size: Size::Word });

const IMMEDIATE_D: Option<Slot> = Some(Slot::Immediate {
    size: Size::Doubleword,
});

const IMMEDIATE_Q: Option<Slot> = Some(Slot::Immediate {
    size: Size::Quadword,
});

const LABEL_OR_W: Option<Slot> = Some(Slot::ImmediateOrLabel { size: Size::Word });

const LABEL_OR_D: Option<Slot> = Some(Slot::ImmediateOrLabel {
    size: Size::Doubleword,
});

const LABEL_OR_Q: Option<Slot> = Some(Slot::ImmediateOrLabel {
    size: Size::Quadword,
});

const RAW_INDEX_W: Option<Slot> = Some(Slot::RawIndex { size: Size::Word });

const RAW_INDEX_D: Option<Slot> = Some(Slot::RawIndex {
    size: Size::Doubleword,
});

const RAW_INDEX_Q: Option<Slot> = Some(Slot::RawIndex {
    size: Size::Quadword,
});

/// Writes a row of the table: the name and the opcode; of the modifiers and then of the second
/// byte, the bits that the name fixes and their values; operand 1 and operand 2.
macro_rules! row {
    ($text:literal, $op:literal, $mods_mask:literal, $mods:literal, $operands_mask:literal, $operands:literal, $one:expr, $two:expr) => {
        NameRow {
            text: $text,
            pattern: Pattern {
                op: $op,
                mask: Bits {
                    mods: $mods_mask,
                    operands: $operands_mask,
                },
                bits: Bits {
                    mods: $mods,
                    operands: $operands,
                },
                one: $one,
                two: $two,
            },
        }
    };
}

static NAMES: [NameRow; 132] = [
    // The break code.
    row!("BREAK", 0x00, 0, 0, 0x00, 0x00, Some(Slot::Code), None),
    // M6: 64 bits, which are always data; byte 1, bit 7: conditional, bit 6: the flag that is
    // wanted, bit 4: relative.
    row!("JMP32", 0x01, 1, 0, 0x90, 0x10, LABEL_TARGET_32, None),
    row!("JMP32a", 0x01, 1, 0, 0x90, 0x00, TARGET_32, None),
    row!("JMP32cs", 0x01, 1, 0, 0xd0, 0xd0, LABEL_TARGET_32, None),
    row!("JMP32csa", 0x01, 1, 0, 0xd0, 0xc0, TARGET_32, None),
    row!("JMP32cc", 0x01, 1, 0, 0xd0, 0x90, LABEL_TARGET_32, None),
    row!("JMP32cca", 0x01, 1, 0, 0xd0, 0x80, TARGET_32, None),
    row!("JMP64", 0x01, 3, 3, 0x90, 0x10, LABEL_OR_Q, None),
    row!("JMP64a", 0x01, 3, 3, 0x90, 0x00, IMMEDIATE_Q, None),
    row!("JMP64cs", 0x01, 3, 3, 0xd0, 0xd0, LABEL_OR_Q, None),
    row!("JMP64csa", 0x01, 3, 3, 0xd0, 0xc0, IMMEDIATE_Q, None),
    row!("JMP64cc", 0x01, 3, 3, 0xd0, 0x90, LABEL_OR_Q, None),
    row!("JMP64cca", 0x01, 3, 3, 0xd0, 0x80, IMMEDIATE_Q, None),
    // M7: conditional; m6: the flag that is wanted.
    row!("JMP8", 0x02, 2, 0, 0x00, 0x00, Some(Slot::Step), None),
    row!("JMP8cs", 0x02, 3, 3, 0x00, 0x00, Some(Slot::Step), None),
    row!("JMP8cc", 0x02, 3, 2, 0x00, 0x00, Some(Slot::Step), None),
    // M6: 64 bits, which are always data; byte 1, bit 5: native, bit 4: relative.
    row!("CALL32", 0x03, 1, 0, 0x30, 0x10, LABEL_TARGET_32, None),
    row!("CALL32a", 0x03, 1, 0, 0x30, 0x00, TARGET_32, None),
    row!("CALL32EX", 0x03, 1, 0, 0x30, 0x30, LABEL_TARGET_32, None),
    row!("CALL32EXa", 0x03, 1, 0, 0x30, 0x20, TARGET_32, None),
    row!("CALL64", 0x03, 3, 3, 0x30, 0x10, LABEL_OR_Q, None),
    row!("CALL64a", 0x03, 3, 3, 0x30, 0x00, IMMEDIATE_Q, None),
    row!("CALL64EX", 0x03, 3, 3, 0x30, 0x30, LABEL_OR_Q, None),
    row!("CALL64EXa", 0x03, 3, 3, 0x30, 0x20, IMMEDIATE_Q, None),
    row!("RET", 0x04, 0, 0, 0x00, 0x00, None, None),
    // M6: 64 bits.
    row!("CMP32eq", 0x05, 1, 0, 0x00, 0x00, DIRECT_1, DATA_2),
    row!("CMP64eq", 0x05, 1, 1, 0x00, 0x00, DIRECT_1, DATA_2),
    row!("CMP32lte", 0x06, 1, 0, 0x00, 0x00, DIRECT_1, DATA_2),
    row!("CMP64lte", 0x06, 1, 1, 0x00, 0x00, DIRECT_1, DATA_2),
    row!("CMP32gte", 0x07, 1, 0, 0x00, 0x00, DIRECT_1, DATA_2),
    row!("CMP64gte", 0x07, 1, 1, 0x00, 0x00, DIRECT_1, DATA_2),
    row!("CMP32ulte", 0x08, 1, 0, 0x00, 0x00, DIRECT_1, DATA_2),
    row!("CMP64ulte", 0x08, 1, 1, 0x00, 0x00, DIRECT_1, DATA_2),
    row!("CMP32ugte", 0x09, 1, 0, 0x00, 0x00, DIRECT_1, DATA_2),
    row!("CMP64ugte", 0x09, 1, 1, 0x00, 0x00, DIRECT_1, DATA_2),
    row!("NOT32", 0x0a, 1, 0, 0x00, 0x00, PLAIN_1, DATA_2),
    row!("NOT64", 0x0a, 1, 1, 0x00, 0x00, PLAIN_1, DATA_2),
    row!("NEG32", 0x0b, 1, 0, 0x00, 0x00, PLAIN_1, DATA_2),
    row!("NEG64", 0x0b, 1, 1, 0x00, 0x00, PLAIN_1, DATA_2),
    row!("ADD32", 0x0c, 1, 0, 0x00, 0x00, PLAIN_1, DATA_2),
    row!("ADD64", 0x0c, 1, 1, 0x00, 0x00, PLAIN_1, DATA_2),
    row!("SUB32", 0x0d, 1, 0, 0x00, 0x00, PLAIN_1, DATA_2),
    row!("SUB64", 0x0d, 1, 1, 0x00, 0x00, PLAIN_1, DATA_2),
    row!("MUL32", 0x0e, 1, 0, 0x00, 0x00, PLAIN_1, DATA_2),
    row!("MUL64", 0x0e, 1, 1, 0x00, 0x00, PLAIN_1, DATA_2),
    row!("MULU32", 0x0f, 1, 0, 0x00, 0x00, PLAIN_1, DATA_2),
    row!("MULU64", 0x0f, 1, 1, 0x00, 0x00, PLAIN_1, DATA_2),
    row!("DIV32", 0x10, 1, 0, 0x00, 0x00, PLAIN_1, DATA_2),
    row!("DIV64", 0x10, 1, 1, 0x00, 0x00, PLAIN_1, DATA_2),
    row!("DIVU32", 0x11, 1, 0, 0x00, 0x00, PLAIN_1, DATA_2),
    row!("DIVU64", 0x11, 1, 1, 0x00, 0x00, PLAIN_1, DATA_2),
    row!("MOD32", 0x12, 1, 0, 0x00, 0x00, PLAIN_1, DATA_2),
    row!("MOD64", 0x12, 1, 1, 0x00, 0x00, PLAIN_1, DATA_2),
    row!("MODU32", 0x13, 1, 0, 0x00, 0x00, PLAIN_1, DATA_2),
    row!("MODU64", 0x13, 1, 1, 0x00, 0x00, PLAIN_1, DATA_2),
    row!("AND32", 0x14, 1, 0, 0x00, 0x00, PLAIN_1, DATA_2),
    row!("AND64", 0x14, 1, 1, 0x00, 0x00, PLAIN_1, DATA_2),
    row!("OR32", 0x15, 1, 0, 0x00, 0x00, PLAIN_1, DATA_2),
    row!("OR64", 0x15, 1, 1, 0x00, 0x00, PLAIN_1, DATA_2),
    row!("XOR32", 0x16, 1, 0, 0x00, 0x00, PLAIN_1, DATA_2),
    row!("XOR64", 0x16, 1, 1, 0x00, 0x00, PLAIN_1, DATA_2),
    row!("SHL32", 0x17, 1, 0, 0x00, 0x00, PLAIN_1, DATA_2),
    row!("SHL64", 0x17, 1, 1, 0x00, 0x00, PLAIN_1, DATA_2),
    row!("SHR32", 0x18, 1, 0, 0x00, 0x00, PLAIN_1, DATA_2),
    row!("SHR64", 0x18, 1, 1, 0x00, 0x00, PLAIN_1, DATA_2),
    row!("ASHR32", 0x19, 1, 0, 0x00, 0x00, PLAIN_1, DATA_2),
    row!("ASHR64", 0x19, 1, 1, 0x00, 0x00, PLAIN_1, DATA_2),
    row!("EXTNDB32", 0x1a, 1, 0, 0x00, 0x00, PLAIN_1, DATA_2),
    row!("EXTNDB64", 0x1a, 1, 1, 0x00, 0x00, PLAIN_1, DATA_2),
    row!("EXTNDW32", 0x1b, 1, 0, 0x00, 0x00, PLAIN_1, DATA_2),
    row!("EXTNDW64", 0x1b, 1, 1, 0x00, 0x00, PLAIN_1, DATA_2),
    row!("EXTNDD32", 0x1c, 1, 0, 0x00, 0x00, PLAIN_1, DATA_2),
    row!("EXTNDD64", 0x1c, 1, 1, 0x00, 0x00, PLAIN_1, DATA_2),
    // The move's size and the indices' size.
    row!("MOVbw", 0x1d, 0, 0, 0x00, 0x00, INDEX_1_W, INDEX_2_W),
    row!("MOVww", 0x1e, 0, 0, 0x00, 0x00, INDEX_1_W, INDEX_2_W),
    row!("MOVdw", 0x1f, 0, 0, 0x00, 0x00, INDEX_1_W, INDEX_2_W),
    row!("MOVqw", 0x20, 0, 0, 0x00, 0x00, INDEX_1_W, INDEX_2_W),
    row!("MOVbd", 0x21, 0, 0, 0x00, 0x00, INDEX_1_D, INDEX_2_D),
    row!("MOVwd", 0x22, 0, 0, 0x00, 0x00, INDEX_1_D, INDEX_2_D),
    row!("MOVdd", 0x23, 0, 0, 0x00, 0x00, INDEX_1_D, INDEX_2_D),
    row!("MOVqd", 0x24, 0, 0, 0x00, 0x00, INDEX_1_D, INDEX_2_D),
    row!("MOVsnw", 0x25, 0, 0, 0x00, 0x00, INDEX_1_W, SIGNED_2_W),
    row!("MOVsnd", 0x26, 0, 0, 0x00, 0x00, INDEX_1_D, SIGNED_2_D),
    row!("MOVqq", 0x28, 0, 0, 0x00, 0x00, INDEX_1_Q, INDEX_2_Q),
    // Between FLAGS or IP and a register.
    row!(
        "LOADSP",
        0x29,
        0,
        0,
        0x00,
        0x00,
        Some(Slot::Flags),
        DIRECT_2
    ),
    row!(
        "STORESP",
        0x2a,
        0,
        0,
        0x00,
        0x00,
        DIRECT_1,
        Some(Slot::FlagsOrIp)
    ),
    // M6: 64 bits.
    row!("PUSH32", 0x2b, 1, 0, 0x00, 0x00, DATA_1, None),
    row!("PUSH64", 0x2b, 1, 1, 0x00, 0x00, DATA_1, None),
    row!("POP32", 0x2c, 1, 0, 0x00, 0x00, DATA_1, None),
    row!("POP64", 0x2c, 1, 1, 0x00, 0x00, DATA_1, None),
    // M6: 64 bits; m7: an immediate of 4 bytes.
    row!("CMPI32weq", 0x2d, 3, 0, 0x00, 0x00, COMPARE_1, IMMEDIATE_W),
    row!("CMPI32deq", 0x2d, 3, 2, 0x00, 0x00, COMPARE_1, IMMEDIATE_D),
    row!("CMPI64weq", 0x2d, 3, 1, 0x00, 0x00, COMPARE_1, IMMEDIATE_W),
    row!("CMPI64deq", 0x2d, 3, 3, 0x00, 0x00, COMPARE_1, IMMEDIATE_D),
    row!("CMPI32wlte", 0x2e, 3, 0, 0x00, 0x00, COMPARE_1, IMMEDIATE_W),
    row!("CMPI32dlte", 0x2e, 3, 2, 0x00, 0x00, COMPARE_1, IMMEDIATE_D),
    row!("CMPI64wlte", 0x2e, 3, 1, 0x00, 0x00, COMPARE_1, IMMEDIATE_W),
    row!("CMPI64dlte", 0x2e, 3, 3, 0x00, 0x00, COMPARE_1, IMMEDIATE_D),
    row!("CMPI32wgte", 0x2f, 3, 0, 0x00, 0x00, COMPARE_1, IMMEDIATE_W),
    row!("CMPI32dgte", 0x2f, 3, 2, 0x00, 0x00, COMPARE_1, IMMEDIATE_D),
    row!("CMPI64wgte", 0x2f, 3, 1, 0x00, 0x00, COMPARE_1, IMMEDIATE_W),
    row!("CMPI64dgte", 0x2f, 3, 3, 0x00, 0x00, COMPARE_1, IMMEDIATE_D),
    row!(
        "CMPI32wulte",
        0x30,
        3,
        0,
        0x00,
        0x00,
        COMPARE_1,
        IMMEDIATE_W
    ),
    row!(
        "CMPI32dulte",
        0x30,
        3,
        2,
        0x00,
        0x00,
        COMPARE_1,
        IMMEDIATE_D
    ),
    row!(
        "CMPI64wulte",
        0x30,
        3,
        1,
        0x00,
        0x00,
        COMPARE_1,
        IMMEDIATE_W
    ),
    row!(
        "CMPI64dulte",
        0x30,
        3,
        3,
        0x00,
        0x00,
        COMPARE_1,
        IMMEDIATE_D
    ),
    row!(
        "CMPI32wugte",
        0x31,
        3,
        0,
        0x00,
        0x00,
        COMPARE_1,
        IMMEDIATE_W
    ),
    row!(
        "CMPI32dugte",
        0x31,
        3,
        2,
        0x00,
        0x00,
        COMPARE_1,
        IMMEDIATE_D
    ),
    row!(
        "CMPI64wugte",
        0x31,
        3,
        1,
        0x00,
        0x00,
        COMPARE_1,
        IMMEDIATE_W
    ),
    row!(
        "CMPI64dugte",
        0x31,
        3,
        3,
        0x00,
        0x00,
        COMPARE_1,
        IMMEDIATE_D
    ),
    row!("MOVnw", 0x32, 0, 0, 0x00, 0x00, INDEX_1_W, INDEX_2_W),
    row!("MOVnd", 0x33, 0, 0, 0x00, 0x00, INDEX_1_D, INDEX_2_D),
    row!("PUSHn", 0x35, 0, 0, 0x00, 0x00, DATA_1, None),
    row!("POPn", 0x36, 0, 0, 0x00, 0x00, DATA_1, None),
    // M7, m6: the immediate's size; byte 1, bits 5:4: the move's size.
    row!("MOVIbw", 0x37, 3, 1, 0x30, 0x00, MOVE_1, IMMEDIATE_W),
    row!("MOVIbd", 0x37, 3, 2, 0x30, 0x00, MOVE_1, IMMEDIATE_D),
    row!("MOVIbq", 0x37, 3, 3, 0x30, 0x00, MOVE_1, IMMEDIATE_Q),
    row!("MOVIww", 0x37, 3, 1, 0x30, 0x10, MOVE_1, IMMEDIATE_W),
    row!("MOVIwd", 0x37, 3, 2, 0x30, 0x10, MOVE_1, IMMEDIATE_D),
    row!("MOVIwq", 0x37, 3, 3, 0x30, 0x10, MOVE_1, IMMEDIATE_Q),
    row!("MOVIdw", 0x37, 3, 1, 0x30, 0x20, MOVE_1, IMMEDIATE_W),
    row!("MOVIdd", 0x37, 3, 2, 0x30, 0x20, MOVE_1, IMMEDIATE_D),
    row!("MOVIdq", 0x37, 3, 3, 0x30, 0x20, MOVE_1, IMMEDIATE_Q),
    row!("MOVIqw", 0x37, 3, 1, 0x30, 0x30, MOVE_1, IMMEDIATE_W),
    row!("MOVIqd", 0x37, 3, 2, 0x30, 0x30, MOVE_1, IMMEDIATE_D),
    row!("MOVIqq", 0x37, 3, 3, 0x30, 0x30, MOVE_1, IMMEDIATE_Q),
    row!("MOVInw", 0x38, 3, 1, 0x00, 0x00, MOVE_1, RAW_INDEX_W),
    row!("MOVInd", 0x38, 3, 2, 0x00, 0x00, MOVE_1, RAW_INDEX_D),
    row!("MOVInq", 0x38, 3, 3, 0x00, 0x00, MOVE_1, RAW_INDEX_Q),
    row!("MOVRELw", 0x39, 3, 1, 0x00, 0x00, MOVE_1, LABEL_OR_W),
    row!("MOVRELd", 0x39, 3, 2, 0x00, 0x00, MOVE_1, LABEL_OR_D),
    row!("MOVRELq", 0x39, 3, 3, 0x00, 0x00, MOVE_1, LABEL_OR_Q),
];

/// The table.
#[tactic(auto, unfolding(crate::specs::Names::names))]
fn table() -> &'static [NameRow]
    ensures { map row_name result.now ≡ names }
{
    &NAMES
}

/// The row of the name by which an instruction goes, if there is one.
pub fn name_of(instr: &Instr) -> Option<&'static NameRow>
    ensures { option_map (λ row. row_name row.now) result ≡ name_of instr.now }
{
    first_by_instr(table(), instr)
}

/// The row of a name, if there is one.
pub fn name_by(text: &[u8]) -> Option<&'static NameRow>
    ensures { option_map (λ row. row_name row.now) result ≡ name_by text.now }
{
    first_by_text(table(), text)
}

fn first_by_instr<'a>(rows: &'a [NameRow], instr: &Instr) -> Option<&'a NameRow>
    ensures { option_map (λ row. row_name row.now) result
        ≡ find (goes_by instr.now) (map row_name rows.now) }
{
    for row in rows {
        if goes_by(instr, row) {
            return Some(row);
        }
    }
    None
}

fn first_by_text<'a>(rows: &'a [NameRow], text: &[u8]) -> Option<&'a NameRow>
    ensures { option_map (λ row. row_name row.now) result
        ≡ find (λ name. bytes_eq name.text text.now) (map row_name rows.now) }
{
    for row in rows {
        if row.text.as_bytes() == text {
            return Some(row);
        }
    }
    None
}

fn goes_by(instr: &Instr, row: &NameRow) -> bool
    ensures { result ≡ goes_by instr.now (row_name row.now) }
{
    let pattern = &row.pattern;
    instr.op == pattern.op
        && instr.mods & pattern.mask.mods == pattern.bits.mods
        && instr.operands & pattern.mask.operands == pattern.bits.operands
}
