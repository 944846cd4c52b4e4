ghost use Rattle.std.specs.Prelude.{◌≡◌, IfSome, nat_eq};
ghost use Rattle.std.specs.Map.{lookup};
ghost use Rattle.std.specs.Option.{option_map};
ghost use Rattle.ebc_decode.specs.Spelling.{IsInstruction};
ghost use Rattle.ebc_machine.specs.Action.{effect_of, PartsFit};
ghost use Rattle.ebc_machine.specs.Effects.{effects};

use crate::arithmetic::{Operation, Relation};
use ebc_decode::{Instr, Size};

/// What an instruction does. Instructions that differ only in what they compute or in a size share
/// a variant.
#[derive(Clone, Copy, Debug, PartialEq, Eq)]
pub enum Action {
    Break,
    Jump,
    Jump8,
    Call,
    Return,
    Compare(Relation),
    /// An operation that takes only operand 2.
    Unary(Operation),
    /// An operation on both operands.
    Binary(Operation),
    /// A move of this size, with indices of so many bytes.
    Move(Size, u8),
    /// A move of 8 bytes with indices of so many bytes. The index of a direct operand 2 is a
    /// signed number.
    MoveSigned(u8),
    LoadSpecial,
    StoreSpecial,
    /// PUSH, whose size is that of the operation.
    Push,
    /// POP, whose size is that of the operation.
    Pop,
    CompareImmediate(Relation),
    PushNatural,
    PopNatural,
    MoveImmediate,
    MoveNatural,
    MoveRelative,
}

/// What an instruction does, by its opcode; `None` if there is no such opcode.
#[inline(always)]
pub fn action_of(instr: &Instr) -> Option<Action>
    requires { IsInstruction instr.now }
    ensures effect { option_map effect_of result ≡ lookup (nat_eq instr.now.op) effects }
    ensures parts { IfSome result (λ action. PartsFit action instr.now) }
{
    match instr.op {
        0x00 => Some(Action::Break),
        0x01 => Some(Action::Jump),
        0x02 => Some(Action::Jump8),
        0x03 => Some(Action::Call),
        0x04 => Some(Action::Return),
        0x05 => Some(Action::Compare(Relation::Eq)),
        0x06 => Some(Action::Compare(Relation::Lte)),
        0x07 => Some(Action::Compare(Relation::Gte)),
        0x08 => Some(Action::Compare(Relation::Ulte)),
        0x09 => Some(Action::Compare(Relation::Ugte)),
        0x0a => Some(Action::Unary(Operation::Not)),
        0x0b => Some(Action::Unary(Operation::Neg)),
        0x0c => Some(Action::Binary(Operation::Add)),
        0x0d => Some(Action::Binary(Operation::Sub)),
        0x0e => Some(Action::Binary(Operation::Mul)),
        0x0f => Some(Action::Binary(Operation::Mulu)),
        0x10 => Some(Action::Binary(Operation::Div)),
        0x11 => Some(Action::Binary(Operation::Divu)),
        0x12 => Some(Action::Binary(Operation::Mod)),
        0x13 => Some(Action::Binary(Operation::Modu)),
        0x14 => Some(Action::Binary(Operation::And)),
        0x15 => Some(Action::Binary(Operation::Or)),
        0x16 => Some(Action::Binary(Operation::Xor)),
        0x17 => Some(Action::Binary(Operation::Shl)),
        0x18 => Some(Action::Binary(Operation::Shr)),
        0x19 => Some(Action::Binary(Operation::Ashr)),
        0x1a => Some(Action::Unary(Operation::Extndb)),
        0x1b => Some(Action::Unary(Operation::Extndw)),
        0x1c => Some(Action::Unary(Operation::Extndd)),
        0x1d => Some(Action::Move(Size::Byte, 2)),
        0x1e => Some(Action::Move(Size::Word, 2)),
        0x1f => Some(Action::Move(Size::Doubleword, 2)),
        0x20 => Some(Action::Move(Size::Quadword, 2)),
        0x21 => Some(Action::Move(Size::Byte, 4)),
        0x22 => Some(Action::Move(Size::Word, 4)),
        0x23 => Some(Action::Move(Size::Doubleword, 4)),
        0x24 => Some(Action::Move(Size::Quadword, 4)),
        0x25 => Some(Action::MoveSigned(2)),
        0x26 => Some(Action::MoveSigned(4)),
        0x28 => Some(Action::Move(Size::Quadword, 8)),
        0x29 => Some(Action::LoadSpecial),
        0x2a => Some(Action::StoreSpecial),
        0x2b => Some(Action::Push),
        0x2c => Some(Action::Pop),
        0x2d => Some(Action::CompareImmediate(Relation::Eq)),
        0x2e => Some(Action::CompareImmediate(Relation::Lte)),
        0x2f => Some(Action::CompareImmediate(Relation::Gte)),
        0x30 => Some(Action::CompareImmediate(Relation::Ulte)),
        0x31 => Some(Action::CompareImmediate(Relation::Ugte)),
        0x32 => Some(Action::Move(Size::Quadword, 2)),
        0x33 => Some(Action::Move(Size::Quadword, 4)),
        0x35 => Some(Action::PushNatural),
        0x36 => Some(Action::PopNatural),
        0x37 => Some(Action::MoveImmediate),
        0x38 => Some(Action::MoveNatural),
        0x39 => Some(Action::MoveRelative),
        _ => None,
    }
}
