ghost use Rattle.std.specs.Prelude.{◌≡◌, ◌<◌, ◌^◌, IsTrue, IfOk, OnErr};
ghost use Rattle.byteorder.specs.Endian.{twos_complement};
ghost use Rattle.ebc_decode.specs.Columns.{is_set, m6, m7};
ghost use Rattle.ebc_decode.specs.NaturalIndex.{is_index_size};
ghost use Rattle.guest_memory.specs.Segment.{is_access};
ghost use Rattle.ebc_machine.specs.Operands.{x_of, y_of, is_x_indirect, is_y_indirect, is_wide, operation_size, load, x_address, y_address, operand_1, operand_2, goes_on, to_register, to_memory, result_to, move_to, jumps, is_c, with_condition};
ghost use Rattle.ebc_decode.specs.Sizes.{byte_count, low};
ghost use Rattle.ebc_machine.specs.Plan.{plan_result, with_rest};

use crate::cpu::{Cpu, Request, Rest, Store};
use ebc_decode::{Instr, Size, natural};
use fw_types::Cause;
use guest_memory::GuestMem;

/// Whether bit 7 of the first byte is set.
pub fn has_m7(instr: &Instr) -> bool
    ensures { result ≡ m7 instr.now.mods }
{
    instr.mods & 2 != 0
}

/// Whether bit 6 of the first byte is set.
pub fn has_m6(instr: &Instr) -> bool
    ensures { result ≡ m6 instr.now.mods }
{
    instr.mods & 1 != 0
}

/// The number of the register of operand 1.
pub fn x_of(instr: &Instr) -> usize
    ensures value { result ≡ x_of instr.now }
    ensures small { result < 8 }
{
    (instr.operands % 8) as usize
}

/// The number of the register of operand 2.
pub fn y_of(instr: &Instr) -> usize
    ensures value { result ≡ y_of instr.now }
    ensures small { result < 8 }
{
    (instr.operands / 16 % 8) as usize
}

/// Whether operand 1 is indirect.
pub fn is_x_indirect(instr: &Instr) -> bool
    ensures { result ≡ is_x_indirect instr.now }
{
    instr.operands & 0x08 != 0
}

/// Whether operand 2 is indirect.
pub fn is_y_indirect(instr: &Instr) -> bool
    ensures { result ≡ is_y_indirect instr.now }
{
    instr.operands & 0x80 != 0
}

/// The size of an operation of 64 or of 32 bits.
pub fn operation_size(wide: bool) -> Size
    ensures { result ≡ operation_size wide }
{
    if wide {
        Size::Quadword
    } else {
        Size::Doubleword
    }
}

/// The value of a number of `size` bytes in two's complement.
pub fn signed(raw: u64, size: u8) -> i64
    requires size { IsTrue (is_index_size size) }
    requires fits { raw < 256 ^ size }
    ensures { result ≡ twos_complement size raw }
{
    match size {
        2 => i64::from((raw as u16).cast_signed()),
        4 => i64::from((raw as u32).cast_signed()),
        _ => raw.cast_signed(),
    }
}

/// Reads a number from memory. The cause of a trap is `Memory`, if no segment has all its bytes.
#[inline(always)]
pub fn load<M: GuestMem>(mem: &M, at: u64, size: Size) -> Result<u64, Cause>
    ensures value { result ≡ load (M.segments mem.now) at size }
    ensures fits { IfOk result (λ value. value < 256 ^ byte_count size) }
{
    match mem.read(at, size.byte_count()) {
        Some(value) => Ok(value),
        None => Err(Cause::Memory),
    }
}

/// The address of operand 1 in memory, with an index of `index` bytes.
#[inline(always)]
pub fn x_address(cpu: &Cpu, instr: &Instr, index: u8) -> u64
    requires size { IsTrue (is_index_size index) }
    requires fits { instr.now.first < 256 ^ index }
    ensures { result ≡ x_address cpu.now instr.now index }
{
    cpu.r[x_of(instr)].wrapping_add_signed(natural(instr.first, index))
}

/// The address of operand 2 in memory, with an index of `index` bytes.
#[inline(always)]
pub fn y_address(cpu: &Cpu, instr: &Instr, index: u8) -> u64
    requires size { IsTrue (is_index_size index) }
    requires fits { instr.now.second < 256 ^ index }
    ensures { result ≡ y_address cpu.now instr.now index }
{
    cpu.r[y_of(instr)].wrapping_add_signed(natural(instr.second, index))
}

/// Operand 1 of an operation.
#[inline(always)]
pub fn operand_1<M: GuestMem>(cpu: &Cpu, mem: &M, instr: &Instr) -> Result<u64, Cause>
    ensures { result ≡ operand_1 cpu.now (M.segments mem.now) instr.now }
{
    let value = cpu.r[x_of(instr)];
    if is_x_indirect(instr) {
        load(mem, value, operation_size(has_m6(instr)))
    } else {
        Ok(value)
    }
}

/// Operand 2 of an operation.
#[inline(always)]
pub fn operand_2<M: GuestMem>(cpu: &Cpu, mem: &M, instr: &Instr) -> Result<u64, Cause>
    requires { instr.now.second < 256 ^ 2 }
    ensures { result ≡ operand_2 cpu.now (M.segments mem.now) instr.now }
{
    if is_y_indirect(instr) {
        load(mem, y_address(cpu, instr, 2), operation_size(has_m6(instr)))
    } else {
        Ok(cpu.r[y_of(instr)].wrapping_add_signed(signed(instr.second, 2)))
    }
}

/// Lets the code go on at an address, with a request.
#[inline(always)]
pub fn goes_on(cpu: &mut Cpu, ip: u64, request: Request) -> Rest
    ensures { with_rest cpu.new result ≡ goes_on cpu.old ip request }
{
    cpu.ip = ip;
    Rest {
        store: None,
        request,
    }
}

/// Puts a value into a register.
#[inline(always)]
pub fn to_register(cpu: &mut Cpu, next: u64, register: usize, value: u64) -> Rest
    requires { register < 8 }
    ensures { with_rest cpu.new result ≡ to_register cpu.old next register value }
{
    cpu.r[register] = value;
    goes_on(cpu, next, Request::Nothing)
}

/// Leaves a write to be done.
#[inline(always)]
pub fn to_memory(cpu: &mut Cpu, next: u64, store: Store) -> Rest
    ensures { with_rest cpu.new result ≡ to_memory cpu.old next store.at store.size store.value }
{
    cpu.ip = next;
    Rest {
        store: Some(store),
        request: Request::Nothing,
    }
}

/// Puts the result of an operation into operand 1.
#[inline(always)]
pub fn result_to(cpu: &mut Cpu, instr: &Instr, next: u64, value: u64) -> Rest
    ensures { with_rest cpu.new result ≡ result_to cpu.old instr.now next value }
{
    let register = x_of(instr);
    if is_x_indirect(instr) {
        let size = operation_size(has_m6(instr));
        let at = cpu.r[register];
        to_memory(cpu, next, Store { at, size, value })
    } else {
        to_register(cpu, next, register, value)
    }
}

/// Puts a value into operand 1 of a move, with an index of `index` bytes.
#[inline(always)]
pub fn move_to(cpu: &mut Cpu, instr: &Instr, next: u64, index: u8, size: Size, value: u64) -> Rest
    requires size { IsTrue (is_index_size index) }
    requires fits { instr.now.first < 256 ^ index }
    ensures { with_rest cpu.new result ≡ move_to cpu.old instr.now next index size value }
{
    if is_x_indirect(instr) {
        let at = x_address(cpu, instr, index);
        to_memory(cpu, next, Store { at, size, value })
    } else {
        to_register(cpu, next, x_of(instr), size.low(value))
    }
}

/// Jumps to a target. The cause of a trap is `Align`, if the target is odd.
#[inline(always)]
pub fn jumps(cpu: &mut Cpu, target: u64) -> Result<Rest, Cause>
    ensures plan { plan_result cpu.new result ≡ jumps cpu.old target }
    ensures kept { OnErr result (cpu.new ≡ cpu.old) }
{
    if target % 2 == 0 {
        Ok(goes_on(cpu, target, Request::Nothing))
    } else {
        Err(Cause::Align)
    }
}

/// Whether the condition flag C is set.
pub fn is_c(cpu: &Cpu) -> bool
    ensures { result ≡ is_c cpu.now }
{
    cpu.flags & 1 != 0
}

/// Puts the outcome of a comparison into the condition flag C.
#[inline(always)]
pub fn with_condition(cpu: &mut Cpu, next: u64, c: bool) -> Rest
    ensures { with_rest cpu.new result ≡ with_condition cpu.old next c }
{
    cpu.flags = cpu.flags / 2 * 2 + if c { 1 } else { 0 };
    goes_on(cpu, next, Request::Nothing)
}
