ghost use Rattle.std.specs.Prelude.{◌≡◌, true};
ghost use Rattle.ebc_machine.specs.Arithmetic.{holds, result_of};

use crate::arithmetic::{Operation, Relation};
use fw_types::Cause;

impl Operation {
    /// The 64-bit result on operands 1 and 2. The cause of a trap is `Divide`, if it divides by 0.
    #[inline(always)]
    pub fn of_64_bits(self, a: u64, b: u64) -> Result<u64, Cause>
        ensures { result ≡ result_of self true a b }
    {
        match self {
            Operation::Not => Ok(!b),
            Operation::Neg => Ok(0u64.wrapping_sub(b)),
            Operation::Add => Ok(a.wrapping_add(b)),
            Operation::Sub => Ok(a.wrapping_sub(b)),
            Operation::Mul => Ok(
                a.cast_signed()
                    .wrapping_mul(b.cast_signed())
                    .cast_unsigned(),
            ),
            Operation::Mulu => Ok(a.wrapping_mul(b)),
            Operation::Div | Operation::Divu | Operation::Mod | Operation::Modu if b == 0 => {
                Err(Cause::Divide)
            }
            Operation::Div => Ok(
                a.cast_signed()
                    .wrapping_div(b.cast_signed())
                    .cast_unsigned(),
            ),
            Operation::Divu => Ok(a / b),
            Operation::Mod => Ok(
                a.cast_signed()
                    .wrapping_rem(b.cast_signed())
                    .cast_unsigned(),
            ),
            Operation::Modu => Ok(a % b),
            Operation::And => Ok(a & b),
            Operation::Or => Ok(a | b),
            Operation::Xor => Ok(a ^ b),
            Operation::Shl => Ok(a << (b % 64)),
            Operation::Shr => Ok(a >> (b % 64)),
            Operation::Ashr => Ok((a.cast_signed() >> (b % 64)).cast_unsigned()),
            Operation::Extndb => Ok(i64::from(((b % 0x100) as u8).cast_signed()).cast_unsigned()),
            Operation::Extndw => Ok(i64::from(
                ((b % 0x1_0000) as u16).cast_signed(),
            ).cast_unsigned()),
            Operation::Extndd => Ok(i64::from(
                ((b % 0x1_0000_0000) as u32).cast_signed(),
            ).cast_unsigned()),
        }
    }
}

impl Relation {
    /// Whether operand 1 and operand 2 of 64 bits are in the relation.
    #[inline(always)]
    pub fn of_64_bits(self, a: u64, b: u64) -> bool
        ensures { result ≡ holds self true a b }
    {
        match self {
            Relation::Eq => a == b,
            Relation::Lte => a.cast_signed() <= b.cast_signed(),
            Relation::Gte => a.cast_signed() >= b.cast_signed(),
            Relation::Ulte => a <= b,
            Relation::Ugte => a >= b,
        }
    }
}
