//! Laws of a step. Each is the contract of a function with no code of its own.
//!
//! A step is a function of registers and memory (`stepped`), so each state comes to one outcome.
ghost use Rattle.std.specs.Prelude.{◌≡◌, ◌+◌, ◌%◌, ◌^◌, ◌⊎◌, ℕ, List, map, Ok, true, false};
ghost use Rattle.ebc_decode.specs.Spelling.{decoding, rows};
ghost use Rattle.ebc_decode.specs.declared.instr.Instr.{Instr};
ghost use Rattle.fw_types.specs.declared.event.Cause.{Cause};
ghost use Rattle.guest_memory.specs.GuestMemory.{image_code};
ghost use Rattle.guest_memory.specs.declared.address_map.TheConstants.{EXIT};
ghost use Rattle.guest_memory.specs.declared.segment.Segment.{Segment};
ghost use Rattle.ebc_machine.specs.Effects.{effects};
ghost use Rattle.ebc_machine.specs.Step.{stepped};
ghost use Rattle.ebc_machine.specs.StepLaws.{is_jump, sets_flags, ChangesOneRange};
ghost use Rattle.ebc_machine.specs.declared.cpu.Cpu.{Cpu};
ghost use Rattle.ebc_machine.specs.declared.cpu.StepOut.TheVariants.{Trap, Native, MakeThunk};

use ebc_decode::laws::lengths_are_even;

/// The instructions that have an effect are those that have a spelling, in one order.
pub fn effects_of_all_instructions()
    ensures { map (λ e. e.0) effects ≡ map (λ r. r.opcode) rows }
{}

/// A trap leaves registers and memory as they were.
pub fn traps_change_nothing()
    ensures { (cpu : Cpu) (segments : List Segment) (cause : Cause) →
        (stepped cpu segments).out ≡ Trap cause →
        ((stepped cpu segments).cpu ≡ cpu) × ((stepped cpu segments).segments ≡ segments) }
{}

/// An even IP stays even.
pub fn even_ip_stays_even()
    ensures { (cpu : Cpu) (segments : List Segment) →
        cpu.ip % 2 ≡ 0 → (stepped cpu segments).cpu.ip % 2 ≡ 0 }
{
    // By a law of the instruction table.
    lengths_are_even();
}

/// An instruction that does not trap and is no JMP, JMP8, CALL or RET is followed by the next one:
/// IP rises by its length.
pub fn other_instructions_go_on()
    ensures { (cpu : Cpu) (segments : List Segment) (instr : Instr) (n : ℕ) →
        ¬ (cpu.ip ≡ EXIT) → decoding (image_code segments cpu.ip) ≡ Ok (instr, n) →
        is_jump instr.op ≡ false →
        ((cause : Cause) → ¬ ((stepped cpu segments).out ≡ Trap cause)) →
        (stepped cpu segments).cpu.ip ≡ (cpu.ip + n) % 2 ^ 64 }
{}

/// At most one range of at most 8 bytes changes, in a segment of kind Image, Pool or Stack.
pub fn one_short_range_changes()
    ensures { (cpu : Cpu) (segments : List Segment) →
        ((stepped cpu segments).segments ≡ segments)
        ⊎ ChangesOneRange segments (stepped cpu segments).segments }
{}

/// FLAGS change only by CMP, CMPI and LOADSP.
pub fn few_instructions_change_flags()
    ensures { (cpu : Cpu) (segments : List Segment) →
        ((stepped cpu segments).cpu.flags ≡ cpu.flags)
        ⊎ ((instr : Instr) × (n : ℕ)
        × (decoding (image_code segments cpu.ip) ≡ Ok (instr, n)) × (sets_flags instr.op ≡ true)) }
{}

/// A call of native code and a request for a thunk change no memory.
pub fn requests_change_no_memory()
    ensures native { (cpu : Cpu) (segments : List Segment) (target : ℕ) →
        (stepped cpu segments).out ≡ Native target → (stepped cpu segments).segments ≡ segments }
    ensures thunk { (cpu : Cpu) (segments : List Segment) (place : ℕ) →
        (stepped cpu segments).out ≡ MakeThunk place → (stepped cpu segments).segments ≡ segments }
{}
