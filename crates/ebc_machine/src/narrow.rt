ghost use Rattle.std.specs.Prelude.{◌≡◌, false};
ghost use Rattle.ebc_machine.specs.Arithmetic.{holds, result_of};

use crate::arithmetic::{Operation, Relation};
use fw_types::Cause;

impl Operation {
    /// The 32-bit result on operands 1 and 2. The cause of a trap is `Divide`, if it divides by 0.
    #[inline(always)]
    pub fn of_32_bits(self, a: u32, b: u32) -> Result<u32, Cause>
        ensures { result ≡ result_of self false a b }
    {
        match self {
            Operation::Not => Ok(!b),
            Operation::Neg => Ok(0u32.wrapping_sub(b)),
            Operation::Add => Ok(a.wrapping_add(b)),
            Operation::Sub => Ok(a.wrapping_sub(b)),
            Operation::Mul => Ok(
                a.cast_signed()
                    .wrapping_mul(b.cast_signed())
                    .cast_unsigned(),
            ),
            Operation::Mulu => Ok(a.wrapping_mul(b)),
            Operation::Div | Operation::Divu | Operation::Mod | Operation::Modu if b == 0 => {
                Err(Cause::Divide)
            }
            Operation::Div => Ok(
                a.cast_signed()
                    .wrapping_div(b.cast_signed())
                    .cast_unsigned(),
            ),
            Operation::Divu => Ok(a / b),
            Operation::Mod => Ok(
                a.cast_signed()
                    .wrapping_rem(b.cast_signed())
                    .cast_unsigned(),
            ),
            Operation::Modu => Ok(a % b),
            Operation::And => Ok(a & b),
            Operation::Or => Ok(a | b),
            Operation::Xor => Ok(a ^ b),
            Operation::Shl => Ok(a << (b % 32)),
            Operation::Shr => Ok(a >> (b % 32)),
            Operation::Ashr => Ok((a.cast_signed() >> (b % 32)).cast_unsigned()),
            Operation::Extndb => Ok(i32::from(((b % 0x100) as u8).cast_signed()).cast_unsigned()),
            Operation::Extndw => Ok(i32::from(
                ((b % 0x1_0000) as u16).cast_signed(),
            ).cast_unsigned()),
            Operation::Extndd => Ok(b),
        }
    }
}

impl Relation {
    /// Whether operand 1 and operand 2 of 32 bits are in the relation.
    #[inline(always)]
    pub fn of_32_bits(self, a: u32, b: u32) -> bool
        ensures { result ≡ holds self false a b }
    {
        match self {
            Relation::Eq => a == b,
            Relation::Lte => a.cast_signed() <= b.cast_signed(),
            Relation::Gte => a.cast_signed() >= b.cast_signed(),
            Relation::Ulte => a <= b,
            Relation::Ugte => a >= b,
        }
    }
}
