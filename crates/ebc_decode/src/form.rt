ghost use Rattle.std.specs.Prelude.{◌≡◌, true, Some, IfSome, IsTrue, if◌then◌else◌};
ghost use Rattle.ebc_decode.specs.Spelling.{form_in_table, form_if, is_part_size, HasPartSizes};
ghost use Rattle.ebc_decode.specs.Columns.{m6_needs_m7, m7_needs_xi, bit_needs_xi, width_and_bit_needs_xi, on_m7, on_m6, on_bit, jump_32, jump_64, two_or_four, width, both, jump_bits};

/// What an instruction's first two bytes say: how many bytes its two parts have, and which bits of
/// the first two bytes count.
#[derive(Clone, Copy, Debug, PartialEq, Eq)]
pub struct Form {
    /// The number of bytes of operand 1's index or data: 0, 2, 4 or 8.
    pub first: u8,
    /// The number of bytes of operand 2's index or data, or of the immediate: 0, 2, 4 or 8.
    pub second: u8,
    /// The modifiers that count, as a mask.
    pub kept_mods: u8,
    /// The bits of the second byte that count, as a mask.
    pub kept_operands: u8,
}

/// The form of an instruction by its opcode, its modifiers and its second byte, of which ignored
/// bits may be set, or `None` if these are illegal (UEFI 2.8, chapter 22 'EFI Byte Code Virtual
/// Machine', the instruction pages).
pub fn form_of(op: u8, mods: u8, operands: u8) -> Option<Form>
    ensures listed { result ≡ form_in_table op mods operands }
    ensures sizes { IfSome result HasPartSizes }
{
    match op {
        0x00 => Some(bare_form(0, 0xff)),
        0x01 => jump_form(mods, 0xdf),
        0x02 => Some(bare_form(3, 0xff)),
        0x03 => jump_form(mods, 0x3f),
        0x04 => Some(bare_form(0, 0x00)),
        0x05..=0x09 => Some(data_form(mods, 0xf7)),
        0x0a..=0x1c => Some(data_form(mods, 0xff)),
        0x1d..=0x20 => move_form(2, mods, operands),
        0x21..=0x24 => move_form(4, mods, operands),
        0x25 => move_form(2, mods, operands),
        0x26 => move_form(4, mods, operands),
        0x28 => move_form(8, mods, operands),
        0x29 if operands & 0x07 == 0 => Some(bare_form(0, 0x77)),
        0x2a if operands & 0x60 == 0 => Some(bare_form(0, 0x77)),
        0x2b..=0x2c => Some(stack_form(mods, 3)),
        0x2d..=0x31 => compare_form(mods, operands),
        0x32 => move_form(2, mods, operands),
        0x33 => move_form(4, mods, operands),
        0x35..=0x36 => Some(stack_form(mods, 2)),
        0x37 => immediate_form(mods, operands, 0x7f),
        0x38..=0x39 => immediate_form(mods, operands, 0x4f),
        _ => None,
    }
}

/// The form of an instruction of only two bytes.
fn bare_form(kept_mods: u8, kept_operands: u8) -> Form
    ensures sizes { HasPartSizes result }
    ensures form { Some result ≡ form_if true 0 0 kept_mods kept_operands }
{
    Form {
        first: 0,
        second: 0,
        kept_mods,
        kept_operands,
    }
}

/// The form of JMP and CALL. With 64 bits the target follows, and there is no operand 1.
fn jump_form(mods: u8, kept_operands: u8) -> Option<Form>
    ensures sizes { IfSome result HasPartSizes }
    ensures form { result ≡ form_if (m6_needs_m7 mods 0)
        (jump_32 mods 0) (jump_64 mods 0) both (jump_bits kept_operands mods) }
{
    let m7 = mods & 2 != 0;
    let m6 = mods & 1 != 0;
    match (m7, m6) {
        (false, false) => Some(bare_form(3, kept_operands)),
        (false, true) => None,
        (true, false) => Some(Form {
            first: 4,
            second: 0,
            kept_mods: 3,
            kept_operands,
        }),
        (true, true) => Some(Form {
            first: 0,
            second: 8,
            kept_mods: 3,
            kept_operands: kept_operands & 0xf0,
        }),
    }
}

/// The form of comparisons and arithmetic, with data on operand 2.
fn data_form(mods: u8, kept_operands: u8) -> Form
    ensures sizes { HasPartSizes result }
    ensures form { Some result ≡ form_if true 0 (on_m7 2 mods 0) both kept_operands }
{
    Form {
        first: 0,
        second: if mods & 2 != 0 { 2 } else { 0 },
        kept_mods: 3,
        kept_operands,
    }
}

/// The form of the moves, whose operands have indices of one size.
fn move_form(size: u8, mods: u8, operands: u8) -> Option<Form>
    requires { IsTrue (is_part_size size) }
    ensures sizes { IfSome result HasPartSizes }
    ensures form { result ≡ form_if (m7_needs_xi mods operands)
        (on_m7 size mods operands) (on_m6 size mods operands) both 0xff }
{
    if mods & 2 != 0 && operands & 8 == 0 {
        return None;
    }
    Some(Form {
        first: if mods & 2 != 0 { size } else { 0 },
        second: if mods & 1 != 0 { size } else { 0 },
        kept_mods: 3,
        kept_operands: 0xff,
    })
}

/// The form of PUSH and POP, which have one operand.
fn stack_form(mods: u8, kept_mods: u8) -> Form
    ensures sizes { HasPartSizes result }
    ensures form { Some result ≡ form_if true (on_m7 2 mods 0) 0 kept_mods 0x0f }
{
    Form {
        first: if mods & 2 != 0 { 2 } else { 0 },
        second: 0,
        kept_mods,
        kept_operands: 0x0f,
    }
}

/// The form of comparisons with an immediate.
fn compare_form(mods: u8, operands: u8) -> Option<Form>
    ensures sizes { IfSome result HasPartSizes }
    ensures form { result ≡ form_if (bit_needs_xi 4 mods operands)
        (on_bit 4 2 mods operands) (two_or_four mods operands) both 0x1f }
{
    if operands & 0x10 != 0 && operands & 8 == 0 {
        return None;
    }
    Some(Form {
        first: if operands & 0x10 != 0 { 2 } else { 0 },
        second: if mods & 2 != 0 { 4 } else { 2 },
        kept_mods: 3,
        kept_operands: 0x1f,
    })
}

/// The form of MOVI, MOVIn and MOVREL.
fn immediate_form(mods: u8, operands: u8, kept_operands: u8) -> Option<Form>
    ensures sizes { IfSome result HasPartSizes }
    ensures form { result ≡ form_if (width_and_bit_needs_xi 6 mods operands)
        (on_bit 6 2 mods operands) (width mods operands) both kept_operands }
{
    let m7 = mods & 2 != 0;
    let m6 = mods & 1 != 0;
    if !m7 && !m6 || operands & 0x40 != 0 && operands & 8 == 0 {
        return None;
    }
    Some(Form {
        first: if operands & 0x40 != 0 { 2 } else { 0 },
        second: width_of(m7, m6),
        kept_mods: 3,
        kept_operands,
    })
}

/// The number of bytes of an immediate.
fn width_of(m7: bool, m6: bool) -> u8
    ensures value { result ≡ (if m7 then (if m6 then 8 else 4) else 2) }
    ensures size { IsTrue (is_part_size result) }
{
    match (m7, m6) {
        (true, true) => 8,
        (true, false) => 4,
        _ => 2,
    }
}
