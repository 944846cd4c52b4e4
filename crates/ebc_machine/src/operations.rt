ghost use Rattle.std.specs.Prelude.{◌≡◌, ◌<◌, ◌^◌, OnErr};
ghost use Rattle.std.specs.Int.{cast_unsigned, w64};
ghost use Rattle.byteorder.specs.Endian.{twos_complement};
ghost use Rattle.ebc_decode.specs.Columns.{on_bit, two_or_four};
ghost use Rattle.ebc_machine.specs.Arithmetic.{holds, result_of};
ghost use Rattle.ebc_machine.specs.Operands.{operation_size};
ghost use Rattle.ebc_decode.specs.Sizes.{low};
ghost use Rattle.ebc_machine.specs.Plan.{plan_result};
ghost use Rattle.ebc_machine.specs.Effects.{compare, compare_operand, compare_immediate, unary, binary};

use crate::arithmetic::{Operation, Relation};
use crate::cpu::{Cpu, Rest};
use crate::operands::{
    has_m6, has_m7, is_x_indirect, load, operand_1, operand_2, operation_size, result_to, signed,
    with_condition, x_address, x_of,
};
use ebc_decode::Instr;
use fw_types::Cause;
use guest_memory::GuestMem;

/// Executes CMP.
#[inline(always)]
pub fn run_compare<M: GuestMem>(
    cpu: &mut Cpu,
    mem: &M,
    instr: &Instr,
    next: u64,
    relation: Relation,
) -> Result<Rest, Cause>
    requires { instr.now.second < 256 ^ 2 }
    ensures plan { plan_result cpu.new result
        ≡ compare relation cpu.old (M.segments mem.now) instr.now next }
    ensures kept { OnErr result (cpu.new ≡ cpu.old) }
{
    let b = operand_2(cpu, mem, instr)?;
    let a = cpu.r[x_of(instr)];
    Ok(with_condition(cpu, next, holds(relation, has_m6(instr), a, b)))
}

/// Executes CMPI.
#[inline(always)]
pub fn run_compare_immediate<M: GuestMem>(
    cpu: &mut Cpu,
    mem: &M,
    instr: &Instr,
    next: u64,
    relation: Relation,
) -> Result<Rest, Cause>
    requires first { instr.now.first < 256 ^ on_bit 4 2 0 instr.now.operands }
    requires second { instr.now.second < 256 ^ two_or_four instr.now.mods 0 }
    ensures plan { plan_result cpu.new result
        ≡ compare_immediate relation cpu.old (M.segments mem.now) instr.now next }
    ensures kept { OnErr result (cpu.new ≡ cpu.old) }
{
    let a = compare_operand(cpu, mem, instr)?;
    let b = immediate(instr);
    Ok(with_condition(cpu, next, holds(relation, has_m6(instr), a, b)))
}

/// Executes an operation that takes only operand 2.
#[inline(always)]
pub fn run_unary<M: GuestMem>(
    cpu: &mut Cpu,
    mem: &M,
    instr: &Instr,
    next: u64,
    operation: Operation,
) -> Result<Rest, Cause>
    requires { instr.now.second < 256 ^ 2 }
    ensures plan { plan_result cpu.new result
        ≡ unary operation cpu.old (M.segments mem.now) instr.now next }
    ensures kept { OnErr result (cpu.new ≡ cpu.old) }
{
    let b = operand_2(cpu, mem, instr)?;
    let value = result_of(operation, has_m6(instr), 0, b)?;
    Ok(result_to(cpu, instr, next, value))
}

/// Executes an operation on both operands.
#[inline(always)]
pub fn run_binary<M: GuestMem>(
    cpu: &mut Cpu,
    mem: &M,
    instr: &Instr,
    next: u64,
    operation: Operation,
) -> Result<Rest, Cause>
    requires { instr.now.second < 256 ^ 2 }
    ensures plan { plan_result cpu.new result
        ≡ binary operation cpu.old (M.segments mem.now) instr.now next }
    ensures kept { OnErr result (cpu.new ≡ cpu.old) }
{
    let a = operand_1(cpu, mem, instr)?;
    let b = operand_2(cpu, mem, instr)?;
    let value = result_of(operation, has_m6(instr), a, b)?;
    Ok(result_to(cpu, instr, next, value))
}

/// Whether the relation holds between the lowest 64 or 32 bits of two operands.
#[inline(always)]
fn holds(relation: Relation, wide: bool, a: u64, b: u64) -> bool
    ensures { result
        ≡ holds relation wide (low (operation_size wide) a) (low (operation_size wide) b) }
{
    let size = operation_size(wide);
    let a = size.low(a);
    let b = size.low(b);
    if wide {
        relation.of_64_bits(a, b)
    } else {
        relation.of_32_bits(a as u32, b as u32)
    }
}

/// Computes an operation on the lowest 64 or 32 bits of two operands.
#[inline(always)]
fn result_of(operation: Operation, wide: bool, a: u64, b: u64) -> Result<u64, Cause>
    ensures { result
        ≡ result_of operation wide (low (operation_size wide) a) (low (operation_size wide) b) }
{
    let size = operation_size(wide);
    let a = size.low(a);
    let b = size.low(b);
    if wide {
        operation.of_64_bits(a, b)
    } else {
        match operation.of_32_bits(a as u32, b as u32) {
            Ok(value) => Ok(u64::from(value)),
            Err(cause) => Err(cause),
        }
    }
}

/// Operand 1 of a comparison with an immediate.
#[inline(always)]
fn compare_operand<M: GuestMem>(cpu: &Cpu, mem: &M, instr: &Instr) -> Result<u64, Cause>
    requires { instr.now.first < 256 ^ on_bit 4 2 0 instr.now.operands }
    ensures { result ≡ compare_operand cpu.now (M.segments mem.now) instr.now }
{
    if is_x_indirect(instr) {
        load(mem, x_address(cpu, instr, 2), operation_size(has_m6(instr)))
    } else {
        Ok(cpu.r[x_of(instr)])
    }
}

/// The immediate of a comparison, with its sign extended.
#[inline(always)]
fn immediate(instr: &Instr) -> u64
    requires { instr.now.second < 256 ^ two_or_four instr.now.mods 0 }
    ensures { result
        ≡ cast_unsigned w64 (twos_complement (two_or_four instr.now.mods 0) instr.now.second) }
{
    if has_m7(instr) {
        signed(instr.second, 4).cast_unsigned()
    } else {
        signed(instr.second, 2).cast_unsigned()
    }
}
