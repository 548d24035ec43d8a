//! Laws of the rows and of the words that they encode. There is nothing to run: a caller calls one for what it ensures.

ghost use Rattle.std.specs.Prelude.{◌≡◌, ◌↔◌, ℕ, map, Contains, Some, None, IsSome};
ghost use Rattle.std.specs.List.{AllPairs};
ghost use Rattle.rv_tables.specs.Codes.{decoded};
ghost use Rattle.rv_tables.specs.Tables.{IsDisjoint};
ghost use Rattle.rv_tables.specs.declared.code.Code.{Code};
ghost use Rattle.rv_float_tables.specs.Codes.{float_decoded};
ghost use Rattle.rv_atomics.specs.Codes.{atomic_decoded};
ghost use Rattle.rv_atomics.specs.declared.instr.AtomicInstr.{AtomicInstr};
ghost use Rattle.rv_atomics.specs.Operands.{IsEncodable};
ghost use Rattle.rv_atomics.specs.Rows.{atomic_encodings, atomic_instruction_of, Spells};

/// No word meets two rows.
pub fn rows_are_disjoint()
    ensures { AllPairs IsDisjoint (map (λ e. e.row) atomic_encodings) }
{}

/// A word spells at most one instruction.
pub fn a_word_spells_at_most_one_instruction()
    ensures { (w : ℕ) (i j : AtomicInstr) → Spells w i → Spells w j → i ≡ j }
{}

/// The instruction of a word is the one that it spells.
pub fn the_instruction_of_a_word_is_the_one_that_it_spells()
    ensures { (w : ℕ) (i : AtomicInstr) → (atomic_instruction_of w ≡ Some i) ↔ Spells w i }
{}

/// The operands of the instruction of a word fit their fields.
pub fn an_instruction_of_a_word_is_encodable()
    ensures { (w : ℕ) (i : AtomicInstr) → atomic_instruction_of w ≡ Some i → IsEncodable i }
{}

/// A code with an instruction of A has none of whole numbers and none of floating point, so it does not matter in which table a code is
/// looked up first.
pub fn a_code_is_in_one_table()
    ensures integers { (c : Code) → IsSome (atomic_decoded c) → decoded c ≡ None }
    ensures floats { (c : Code) → IsSome (atomic_decoded c) → float_decoded c ≡ None }
{}
