ghost use Rattle.std.specs.Prelude.{◌≡◌, ◌<◌, ◌^◌, [], OnErr};
ghost use Rattle.ebc_decode.specs.Columns.{is_set, jump_32};
ghost use Rattle.ebc_machine.specs.Plan.{plan_result};
ghost use Rattle.ebc_machine.specs.Effects.{is_taken, base_of, plain_target, target_of, break, jump, jump_8, call, return_plan};

use crate::cpu::{Cpu, Request, Rest, Store};
use crate::operands::{
    goes_on, has_m6, has_m7, is_c, is_x_indirect, jumps, load, signed, to_memory, to_register, x_of,
};
use ebc_decode::{Instr, Size, natural};
use fw_types::Cause;
use guest_memory::GuestMem;

/// The version of the virtual machine that BREAK 1 reports.
const VERSION: u64 = 0x1_0000;

/// Executes BREAK.
#[inline(always)]
pub fn run_break(cpu: &mut Cpu, instr: &Instr, next: u64) -> Result<Rest, Cause>
    ensures plan { plan_result cpu.new result ≡ break cpu.old [] instr.now next }
    ensures kept { OnErr result (cpu.new ≡ cpu.old) }
{
    match instr.operands {
        1 => Ok(to_register(cpu, next, 7, VERSION)),
        5 => {
            let place = cpu.r[7];
            Ok(goes_on(cpu, next, Request::MakeThunk(place)))
        }
        3 | 4 | 6 => Ok(goes_on(cpu, next, Request::Nothing)),
        _ => Err(Cause::Break),
    }
}

/// Executes JMP with 32 or 64 bits.
#[inline(always)]
pub fn run_jump<M: GuestMem>(
    cpu: &mut Cpu,
    mem: &M,
    instr: &Instr,
    next: u64,
) -> Result<Rest, Cause>
    requires { instr.now.first < 256 ^ jump_32 instr.now.mods 0 }
    ensures plan { plan_result cpu.new result ≡ jump cpu.old (M.segments mem.now) instr.now next }
    ensures kept { OnErr result (cpu.new ≡ cpu.old) }
{
    let conditional = instr.operands & 0x80 != 0;
    let wanted = instr.operands & 0x40 != 0;
    if is_taken(cpu, conditional, wanted) {
        let target = target_of(cpu, mem, instr, next)?;
        jumps(cpu, target)
    } else {
        Ok(goes_on(cpu, next, Request::Nothing))
    }
}

/// Executes JMP8.
#[inline(always)]
pub fn run_jump_8(cpu: &mut Cpu, instr: &Instr, next: u64) -> Result<Rest, Cause>
    ensures plan { plan_result cpu.new result ≡ jump_8 cpu.old [] instr.now next }
    ensures kept { OnErr result (cpu.new ≡ cpu.old) }
{
    if is_taken(cpu, has_m7(instr), has_m6(instr)) {
        let units = i64::from(instr.operands.cast_signed());
        jumps(cpu, next.wrapping_add_signed(2 * units))
    } else {
        Ok(goes_on(cpu, next, Request::Nothing))
    }
}

/// Executes CALL.
#[inline(always)]
pub fn run_call<M: GuestMem>(
    cpu: &mut Cpu,
    mem: &M,
    instr: &Instr,
    next: u64,
) -> Result<Rest, Cause>
    requires { instr.now.first < 256 ^ jump_32 instr.now.mods 0 }
    ensures plan { plan_result cpu.new result ≡ call cpu.old (M.segments mem.now) instr.now next }
    ensures kept { OnErr result (cpu.new ≡ cpu.old) }
{
    let target = target_of(cpu, mem, instr, next)?;
    if instr.operands & 0x20 != 0 {
        return Ok(goes_on(cpu, next, Request::Native(target)));
    }
    if target % 2 != 0 {
        return Err(Cause::Align);
    }
    let at = cpu.r[0].wrapping_sub(16);
    let store = Store {
        at,
        size: Size::Quadword,
        value: next,
    };
    cpu.r[0] = at;
    Ok(to_memory(cpu, target, store))
}

/// Executes RET.
#[inline(always)]
pub fn run_return<M: GuestMem>(cpu: &mut Cpu, mem: &M) -> Result<Rest, Cause>
    ensures plan { plan_result cpu.new result ≡ return_plan cpu.old (M.segments mem.now) }
    ensures kept { OnErr result (cpu.new ≡ cpu.old) }
{
    let target = load(mem, cpu.r[0], Size::Quadword)?;
    let rest = jumps(cpu, target)?;
    cpu.r[0] = cpu.r[0].wrapping_add(16);
    Ok(rest)
}

/// Whether a jump is taken.
#[inline(always)]
fn is_taken(cpu: &Cpu, conditional: bool, wanted: bool) -> bool
    ensures { result ≡ is_taken cpu.now conditional wanted }
{
    match (conditional, wanted) {
        (false, _) => true,
        (true, true) => is_c(cpu),
        (true, false) => !is_c(cpu),
    }
}

/// The target of JMP and CALL.
#[inline(always)]
fn target_of<M: GuestMem>(cpu: &Cpu, mem: &M, instr: &Instr, next: u64) -> Result<u64, Cause>
    requires { instr.now.first < 256 ^ jump_32 instr.now.mods 0 }
    ensures { result ≡ target_of cpu.now (M.segments mem.now) instr.now next }
{
    let target = plain_target(cpu, mem, instr)?;
    if instr.operands & 0x10 != 0 {
        Ok(target.wrapping_add(next))
    } else {
        Ok(target)
    }
}

/// The target of JMP and CALL before the address after the instruction is added.
#[inline(always)]
fn plain_target<M: GuestMem>(cpu: &Cpu, mem: &M, instr: &Instr) -> Result<u64, Cause>
    requires { instr.now.first < 256 ^ jump_32 instr.now.mods 0 }
    ensures { result ≡ plain_target cpu.now (M.segments mem.now) instr.now }
{
    if has_m6(instr) {
        return Ok(instr.second);
    }
    let base = base_of(cpu, instr);
    if is_x_indirect(instr) {
        let at = base.wrapping_add_signed(natural(instr.first, 4));
        load(mem, at, Size::Quadword)
    } else {
        Ok(base.wrapping_add_signed(signed(instr.first, 4)))
    }
}

/// The base of a 32-bit target, for which R0 counts as 0.
#[inline(always)]
fn base_of(cpu: &Cpu, instr: &Instr) -> u64
    ensures { result ≡ base_of cpu.now instr.now }
{
    let register = x_of(instr);
    if register == 0 { 0 } else { cpu.r[register] }
}
