ghost use Rattle.std.specs.Prelude.{◌≡◌, IfOk, IsErr, IsSome, OnErr};
ghost use Rattle.ebc_decode.specs.Spelling.{IsInstruction};
ghost use Rattle.ebc_machine.specs.Action.{effect_of, PartsFit};
ghost use Rattle.ebc_machine.specs.Effects.{plan_of_instr};
ghost use Rattle.ebc_machine.specs.Plan.{plan_result, with_rest};
ghost use Rattle.ebc_machine.specs.PutBack.{put_back};
ghost use Rattle.ebc_machine.specs.Step.{stepped, ended, plan_of};

use crate::action::{Action, action_of};
use crate::cpu::{Cpu, Rest, StepOut};
use crate::jumps::{run_break, run_call, run_jump, run_jump_8, run_return};
use crate::moves::{
    run_load_special, run_move, run_move_immediate, run_move_natural, run_move_relative,
    run_move_signed, run_pop, run_push, run_store_special,
};
use crate::operands::{has_m6, operation_size};
use crate::operations::{run_binary, run_compare, run_compare_immediate, run_unary};
use ebc_decode::{DecodeRefusal, Instr, Size, decode};
use fw_types::{Cause, OutOfMemory};
use guest_memory::address_map::EXIT;
use guest_memory::{GuestMem, MemRefusal};

/// One step of EBC (UEFI 2.8, chapter 22 'EFI Byte Code Virtual Machine').
///
/// If IP is the exit address, nothing changes and the answer is `Done`. Otherwise the instruction
/// at IP is executed, and IP is then the address after it or the target of its jump. The answer is
/// `Next`, or `Native` or `MakeThunk` if the instruction asks the firmware for something.
///
/// The answer is `Trap` if the instruction can't be executed. Registers and memory are then as they
/// were. The cause is `Fetch` if no image has the whole instruction, and `Illegal` if the bytes
/// are no instruction. Otherwise it is the first cause that the instruction meets as it reads its
/// operands, divides, tests the target of a jump, and writes, in this order.
///
/// # Errors
///
/// `OutOfMemory` only if a write to this kind of memory may need more memory. Nothing has changed
/// then.
pub fn step<M: GuestMem>(cpu: &mut Cpu, mem: &mut M) -> Result<StepOut, OutOfMemory>
    ensures step { IfOk result (λ out. stepped cpu.old (M.segments mem.old)
        ≡ record { out = out; cpu = cpu.new; segments = M.segments mem.new }) }
    ensures rest { mem.new ≡ M.with_segments mem.old (M.segments mem.new) }
    ensures memory { IsErr result → M.may_run_out }
    ensures err { OnErr result ((cpu.new ≡ cpu.old) × (M.segments mem.new ≡ M.segments mem.old)) }
{
    if cpu.ip == EXIT {
        return Ok(StepOut::Done);
    }
    let ip = cpu.ip;
    let top = cpu.r[0];
    match next_rest(cpu, mem) {
        Ok(rest) => carry_out(cpu, mem, ip, top, &rest),
        Err(cause) => Ok(StepOut::Trap(cause)),
    }
}

/// Executes the instruction at IP on the registers, and answers what is left of it. If it traps,
/// the registers are as they were.
#[inline(always)]
fn next_rest<M: GuestMem>(cpu: &mut Cpu, mem: &M) -> Result<Rest, Cause>
    ensures plan { plan_result cpu.new result ≡ plan_of cpu.old (M.segments mem.now) }
    ensures kept { OnErr result (cpu.new ≡ cpu.old) }
{
    let mut bytes = [0u8; 18];
    let count = mem.fetch(cpu.ip, &mut bytes);
    match decode(&bytes[..count as usize]) {
        Ok((instr, len)) => {
            let next = cpu.ip.wrapping_add(u64::from(len));
            run(cpu, mem, &instr, next)
        }
        Err(DecodeRefusal::Short) => Err(Cause::Fetch),
        Err(DecodeRefusal::Illegal) => Err(Cause::Illegal),
    }
}

/// Executes an instruction on the registers, by its opcode.
#[inline(always)]
fn run<M: GuestMem>(cpu: &mut Cpu, mem: &M, instr: &Instr, next: u64) -> Result<Rest, Cause>
    requires { IsInstruction instr.now }
    ensures plan { plan_result cpu.new result
        ≡ plan_of_instr cpu.old (M.segments mem.now) instr.now next }
    ensures kept { OnErr result (cpu.new ≡ cpu.old) }
{
    match action_of(instr) {
        Some(action) => act(cpu, mem, instr, next, action),
        None => Err(Cause::Illegal),
    }
}

/// Executes an instruction on the registers, by what it does.
#[inline(always)]
fn act<M: GuestMem>(
    cpu: &mut Cpu,
    mem: &M,
    instr: &Instr,
    next: u64,
    action: Action,
) -> Result<Rest, Cause>
    requires { PartsFit action instr.now }
    ensures plan { plan_result cpu.new result
        ≡ effect_of action cpu.old (M.segments mem.now) instr.now next }
    ensures kept { OnErr result (cpu.new ≡ cpu.old) }
{
    match action {
        Action::Break => run_break(cpu, instr, next),
        Action::Jump => run_jump(cpu, mem, instr, next),
        Action::Jump8 => run_jump_8(cpu, instr, next),
        Action::Call => run_call(cpu, mem, instr, next),
        Action::Return => run_return(cpu, mem),
        Action::Compare(relation) => run_compare(cpu, mem, instr, next, relation),
        Action::Unary(operation) => run_unary(cpu, mem, instr, next, operation),
        Action::Binary(operation) => run_binary(cpu, mem, instr, next, operation),
        Action::Move(size, index) => run_move(cpu, mem, instr, next, size, index),
        Action::MoveSigned(index) => run_move_signed(cpu, mem, instr, next, index),
        Action::LoadSpecial => run_load_special(cpu, instr, next),
        Action::StoreSpecial => run_store_special(cpu, instr, next),
        Action::Push => run_push(cpu, mem, instr, next, operation_size(has_m6(instr))),
        Action::Pop => run_pop(cpu, mem, instr, next, operation_size(has_m6(instr))),
        Action::CompareImmediate(relation) => {
            run_compare_immediate(cpu, mem, instr, next, relation)
        }
        Action::PushNatural => run_push(cpu, mem, instr, next, Size::Quadword),
        Action::PopNatural => run_pop(cpu, mem, instr, next, Size::Quadword),
        Action::MoveImmediate => run_move_immediate(cpu, instr, next),
        Action::MoveNatural => run_move_natural(cpu, instr, next),
        Action::MoveRelative => run_move_relative(cpu, instr, next),
    }
}

/// Finishes an instruction whose registers are computed. If its write is refused, IP and R0 are
/// put back: an instruction that writes changes no other register.
#[inline(always)]
fn carry_out<M: GuestMem>(
    cpu: &mut Cpu,
    mem: &mut M,
    ip: u64,
    top: u64,
    rest: &Rest,
) -> Result<StepOut, OutOfMemory>
    ensures step { IfOk result (λ out.
        ended (put_back cpu.old ip top) (M.segments mem.old) (with_rest cpu.old rest.now)
        rest.now.store
        ≡ record { out = out; cpu = cpu.new; segments = M.segments mem.new }) }
    ensures rest { mem.new ≡ M.with_segments mem.old (M.segments mem.new) }
    ensures memory { IsErr result → M.may_run_out }
    ensures err { OnErr result (IsSome rest.now.store × (cpu.new ≡ put_back cpu.old ip top)
        × (M.segments mem.new ≡ M.segments mem.old)) }
{
    if let Some(store) = rest.store {
        match mem.write(store.at, store.size.byte_count(), store.value) {
            Ok(()) => {}
            Err(MemRefusal::OutOfMemory) => {
                cpu.put_back(ip, top);
                return Err(OutOfMemory);
            }
            Err(_) => {
                cpu.put_back(ip, top);
                return Ok(StepOut::Trap(Cause::Memory));
            }
        }
    }
    Ok(rest.request.outcome())
}
