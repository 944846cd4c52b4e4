ghost use Rattle.std.specs.Prelude.{◌≡◌, ◌<◌, ◌^◌, ◌/◌, ◌%◌, [], IsTrue, OnErr};
ghost use Rattle.std.specs.Int.{cast_unsigned, w64};
ghost use Rattle.byteorder.specs.Endian.{twos_complement};
ghost use Rattle.ebc_decode.specs.Columns.{on_m7, on_m6, on_bit, width};
ghost use Rattle.ebc_decode.specs.NaturalIndex.{is_index_size, natural_value};
ghost use Rattle.ebc_decode.specs.Sizes.{byte_count};
ghost use Rattle.ebc_machine.specs.Plan.{plan_result, with_rest};
ghost use Rattle.ebc_machine.specs.Effects.{move, move_operand, move_signed, signed_move_operand, size_by, move_immediate, move_natural, move_relative, load_special, store_special, push, push_operand, pop, pop_to};

use crate::cpu::{Cpu, Request, Rest, Store};
use crate::operands::{
    goes_on, has_m6, has_m7, is_x_indirect, is_y_indirect, load, move_to, signed, to_memory,
    to_register, x_address, x_of, y_address, y_of,
};
use ebc_decode::{Instr, Size, natural};
use fw_types::Cause;
use guest_memory::GuestMem;

/// Executes a move of `size`, with indices of `index` bytes.
#[inline(always)]
pub fn run_move<M: GuestMem>(
    cpu: &mut Cpu,
    mem: &M,
    instr: &Instr,
    next: u64,
    size: Size,
    index: u8,
) -> Result<Rest, Cause>
    requires index { IsTrue (is_index_size index) }
    requires first { instr.now.first < 256 ^ on_m7 index instr.now.mods 0 }
    requires second { instr.now.second < 256 ^ on_m6 index instr.now.mods 0 }
    ensures plan { plan_result cpu.new result
        ≡ move size index cpu.old (M.segments mem.now) instr.now next }
    ensures kept { OnErr result (cpu.new ≡ cpu.old) }
{
    let value = move_operand(cpu, mem, instr, size, index)?;
    Ok(move_to(cpu, instr, next, index, size, value))
}

/// Operand 2 of a move.
#[inline(always)]
fn move_operand<M: GuestMem>(
    cpu: &Cpu,
    mem: &M,
    instr: &Instr,
    size: Size,
    index: u8,
) -> Result<u64, Cause>
    requires index { IsTrue (is_index_size index) }
    requires second { instr.now.second < 256 ^ index }
    ensures { result ≡ move_operand size index cpu.now (M.segments mem.now) instr.now }
{
    let from = y_address(cpu, instr, index);
    if is_y_indirect(instr) {
        load(mem, from, size)
    } else {
        Ok(from)
    }
}

/// Executes a move of 8 bytes, in which the index of a direct operand 2 is a signed number.
#[inline(always)]
pub fn run_move_signed<M: GuestMem>(
    cpu: &mut Cpu,
    mem: &M,
    instr: &Instr,
    next: u64,
    index: u8,
) -> Result<Rest, Cause>
    requires index { IsTrue (is_index_size index) }
    requires first { instr.now.first < 256 ^ on_m7 index instr.now.mods 0 }
    requires second { instr.now.second < 256 ^ on_m6 index instr.now.mods 0 }
    ensures plan { plan_result cpu.new result
        ≡ move_signed index cpu.old (M.segments mem.now) instr.now next }
    ensures kept { OnErr result (cpu.new ≡ cpu.old) }
{
    let value = signed_move_operand(cpu, mem, instr, index)?;
    Ok(move_to(cpu, instr, next, index, Size::Quadword, value))
}

/// Operand 2 of a move whose direct index is a signed number.
#[inline(always)]
fn signed_move_operand<M: GuestMem>(
    cpu: &Cpu,
    mem: &M,
    instr: &Instr,
    index: u8,
) -> Result<u64, Cause>
    requires index { IsTrue (is_index_size index) }
    requires second { instr.now.second < 256 ^ index }
    ensures { result ≡ signed_move_operand index cpu.now (M.segments mem.now) instr.now }
{
    if is_y_indirect(instr) {
        load(mem, y_address(cpu, instr, index), Size::Quadword)
    } else {
        Ok(cpu.r[y_of(instr)].wrapping_add_signed(signed(instr.second, index)))
    }
}

/// Executes MOVI.
#[inline(always)]
pub fn run_move_immediate(cpu: &mut Cpu, instr: &Instr, next: u64) -> Result<Rest, Cause>
    requires first { instr.now.first < 256 ^ on_bit 6 2 0 instr.now.operands }
    requires second { instr.now.second < 256 ^ width instr.now.mods 0 }
    ensures plan { plan_result cpu.new result ≡ move_immediate cpu.old [] instr.now next }
    ensures kept { OnErr result (cpu.new ≡ cpu.old) }
{
    let value = signed(instr.second, immediate_size(instr));
    Ok(move_to(
        cpu,
        instr,
        next,
        2,
        immediate_move_size(instr),
        value.cast_unsigned(),
    ))
}

/// Executes MOVIn.
#[inline(always)]
pub fn run_move_natural(cpu: &mut Cpu, instr: &Instr, next: u64) -> Result<Rest, Cause>
    requires first { instr.now.first < 256 ^ on_bit 6 2 0 instr.now.operands }
    requires second { instr.now.second < 256 ^ width instr.now.mods 0 }
    ensures plan { plan_result cpu.new result ≡ move_natural cpu.old [] instr.now next }
    ensures kept { OnErr result (cpu.new ≡ cpu.old) }
{
    let value = natural(instr.second, immediate_size(instr));
    Ok(move_to(cpu, instr, next, 2, Size::Quadword, value.cast_unsigned()))
}

/// Executes MOVREL.
#[inline(always)]
pub fn run_move_relative(cpu: &mut Cpu, instr: &Instr, next: u64) -> Result<Rest, Cause>
    requires first { instr.now.first < 256 ^ on_bit 6 2 0 instr.now.operands }
    requires second { instr.now.second < 256 ^ width instr.now.mods 0 }
    ensures plan { plan_result cpu.new result ≡ move_relative cpu.old [] instr.now next }
    ensures kept { OnErr result (cpu.new ≡ cpu.old) }
{
    let by = signed(instr.second, immediate_size(instr));
    let value = next.wrapping_add_signed(by);
    Ok(move_to(cpu, instr, next, 2, Size::Quadword, value))
}

/// The number of bytes of the immediate of a move.
fn immediate_size(instr: &Instr) -> u8
    ensures value { result ≡ width instr.now.mods 0 }
    ensures size { IsTrue (is_index_size result) }
{
    match (has_m7(instr), has_m6(instr)) {
        (true, true) => 8,
        (true, false) => 4,
        _ => 2,
    }
}

/// The size of what MOVI moves.
fn immediate_move_size(instr: &Instr) -> Size
    ensures { result ≡ size_by (instr.now.operands / 16 % 4) }
{
    match instr.operands / 16 % 4 {
        0 => Size::Byte,
        1 => Size::Word,
        2 => Size::Doubleword,
        _ => Size::Quadword,
    }
}

/// Executes LOADSP.
#[inline(always)]
pub fn run_load_special(cpu: &mut Cpu, instr: &Instr, next: u64) -> Result<Rest, Cause>
    ensures plan { plan_result cpu.new result ≡ load_special cpu.old [] instr.now next }
    ensures kept { OnErr result (cpu.new ≡ cpu.old) }
{
    cpu.flags = cpu.r[y_of(instr)] % 4;
    Ok(goes_on(cpu, next, Request::Nothing))
}

/// Executes STORESP.
#[inline(always)]
pub fn run_store_special(cpu: &mut Cpu, instr: &Instr, next: u64) -> Result<Rest, Cause>
    ensures plan { plan_result cpu.new result ≡ store_special cpu.old [] instr.now next }
    ensures kept { OnErr result (cpu.new ≡ cpu.old) }
{
    let value = if y_of(instr) == 0 { cpu.flags } else { next };
    Ok(to_register(cpu, next, x_of(instr), value))
}

/// Executes PUSH and PUSHn.
#[inline(always)]
pub fn run_push<M: GuestMem>(
    cpu: &mut Cpu,
    mem: &M,
    instr: &Instr,
    next: u64,
    size: Size,
) -> Result<Rest, Cause>
    requires { instr.now.first < 256 ^ on_m7 2 instr.now.mods 0 }
    ensures plan { plan_result cpu.new result ≡ push size cpu.old (M.segments mem.now) instr.now next }
    ensures kept { OnErr result (cpu.new ≡ cpu.old) }
{
    let value = push_operand(cpu, mem, instr, size)?;
    let at = cpu.r[0].wrapping_sub(u64::from(size.byte_count()));
    cpu.r[0] = at;
    Ok(to_memory(cpu, next, Store { at, size, value }))
}

/// The value of operand 1 that PUSH puts on the stack.
#[inline(always)]
fn push_operand<M: GuestMem>(cpu: &Cpu, mem: &M, instr: &Instr, size: Size) -> Result<u64, Cause>
    requires { instr.now.first < 256 ^ 2 }
    ensures { result ≡ push_operand size cpu.now (M.segments mem.now) instr.now }
{
    if is_x_indirect(instr) {
        load(mem, x_address(cpu, instr, 2), size)
    } else {
        Ok(cpu.r[x_of(instr)].wrapping_add_signed(signed(instr.first, 2)))
    }
}

/// Executes POP and POPn, of 4 or 8 bytes.
#[inline(always)]
pub fn run_pop<M: GuestMem>(
    cpu: &mut Cpu,
    mem: &M,
    instr: &Instr,
    next: u64,
    size: Size,
) -> Result<Rest, Cause>
    requires size { IsTrue (is_index_size (byte_count size)) }
    requires first { instr.now.first < 256 ^ on_m7 2 instr.now.mods 0 }
    ensures plan { plan_result cpu.new result ≡ pop size cpu.old (M.segments mem.now) instr.now next }
    ensures kept { OnErr result (cpu.new ≡ cpu.old) }
{
    let value = load(mem, cpu.r[0], size)?;
    cpu.r[0] = cpu.r[0].wrapping_add(u64::from(size.byte_count()));
    Ok(pop_to(cpu, instr, next, size, value))
}

/// Puts the value from the stack into operand 1 of POP.
#[inline(always)]
fn pop_to(cpu: &mut Cpu, instr: &Instr, next: u64, size: Size, value: u64) -> Rest
    requires size { IsTrue (is_index_size (byte_count size)) }
    requires first { instr.now.first < 256 ^ 2 }
    requires value { value < 256 ^ byte_count size }
    ensures { with_rest cpu.new result ≡ pop_to size cpu.old instr.now next value }
{
    if is_x_indirect(instr) {
        let at = x_address(cpu, instr, 2);
        to_memory(cpu, next, Store { at, size, value })
    } else {
        let extended = signed(value, size.byte_count()).cast_unsigned();
        let sum = extended.wrapping_add_signed(signed(instr.first, 2));
        to_register(cpu, next, x_of(instr), sum)
    }
}
