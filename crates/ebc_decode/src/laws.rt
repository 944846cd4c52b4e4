//! Laws of the instruction table. Each is the contract of a function with no code.
ghost use Rattle.std.specs.Prelude.{◌≡◌, ◌<◌, ◌≤◌, ◌+◌, ◌%◌, ◌++◌, ℕ, List, length, map, take, Ok, Some, IsSomeAnd};
ghost use Rattle.std.specs.List.{All};
ghost use Rattle.std.specs.List.Sorted.{IsStrictlyIncreasing};
ghost use Rattle.ebc_decode.specs.Spelling.{decoding, form_in_table, rows, spelling, FitsForm, IsInstruction, Spells};
ghost use Rattle.ebc_decode.specs.declared.form.Form.{Form};
ghost use Rattle.ebc_decode.specs.declared.instr.Instr.{Instr};

/// No opcode has two rows: the opcodes of the table rise.
pub fn opcodes_rise()
    ensures { IsStrictlyIncreasing (map (λ r. r.opcode) rows) }
{}

/// No byte after an instruction changes what is decoded.
pub fn only_the_front_counts()
    ensures { (bytes other : List ℕ) (instr : Instr) (n : ℕ) →
        decoding bytes ≡ Ok (instr, n) → take n other ≡ take n bytes →
        decoding other ≡ Ok (instr, n) }
{}

/// The front of bytes spells one instruction at most, with one length.
pub fn one_spelling_at_the_front()
    ensures { (one two rest more : List ℕ) (instr other : Instr) →
        Spells one instr → Spells two other → one ++ rest ≡ two ++ more →
        (instr ≡ other) × (length one ≡ length two) × (one ≡ two) }
{}

/// The instructions of the table are those that some bytes spell.
pub fn instructions_are_spelled()
    ensures from_bytes { (bytes : List ℕ) (instr : Instr) →
        Spells bytes instr → IsInstruction instr }
    ensures to_bytes { (instr : Instr) →
        IsInstruction instr → (bytes : List ℕ) × Spells bytes instr }
{}

/// What is decoded is an instruction of the table, and has as many bytes as its form.
pub fn decoding_is_of_its_form()
    ensures { (bytes : List ℕ) (instr : Instr) (n : ℕ) →
        All (λ b. b < 256) bytes → decoding bytes ≡ Ok (instr, n) →
        IsSomeAnd (form_in_table instr.op instr.mods instr.operands) (λ form.
        FitsForm instr form × (n ≡ 2 + form.first + form.second) × (n ≤ length bytes)) }
{}

/// An instruction has an even number of bytes, from 2 to 18.
pub fn lengths_are_even()
    ensures { (bytes : List ℕ) (instr : Instr) (n : ℕ) →
        decoding bytes ≡ Ok (instr, n) → (n % 2 ≡ 0) × (2 ≤ n) × (n ≤ 18) }
{}

/// The bytes of an instruction, with its ignored bits 0, are decoded to it, whatever follows.
pub fn spelling_decodes()
    ensures { (instr : Instr) (form : Form) (rest : List ℕ) →
        form_in_table instr.op instr.mods instr.operands ≡ Some form → FitsForm instr form →
        decoding (spelling form instr instr.mods instr.operands ++ rest)
        ≡ Ok (instr, 2 + form.first + form.second) }
{}
