//! Laws of the rows and of the words that they encode. There is nothing to run: a caller calls one for what it ensures.

ghost use Rattle.std.specs.Prelude.{◌≡◌, ◌↔◌, ℕ, ◌^◌, ◌<◌, map, Some, None, IfSome, IsTrue};
ghost use Rattle.std.specs.List.{AllPairs};
ghost use Rattle.rv_tables.specs.Compressed.{compressed_rows, expansion_of, Expands, IsReserved, IsHint, DoesNothing};
ghost use Rattle.rv_tables.specs.CompressedTables.{AreDisjoint, are_filled};
ghost use Rattle.rv_tables.specs.declared.instr.Instr.{Instr};
ghost use Rattle.rv_tables.specs.Operands.{IsEncodable};
ghost use Rattle.rv_tables.specs.Rows.{encodings, instruction_of, Spells};
ghost use Rattle.rv_tables.specs.Tables.{IsDisjoint};

/// No word meets two rows.
pub fn rows_are_disjoint()
    ensures { AllPairs IsDisjoint (map (λ e. e.row) encodings) }
{}

/// A word spells at most one instruction.
pub fn a_word_spells_at_most_one_instruction()
    ensures { (w : ℕ) (i j : Instr) → w < 2 ^ 32 → Spells w i → Spells w j → i ≡ j }
{}

/// The instruction of a word is the one that it spells.
pub fn the_instruction_of_a_word_is_the_one_that_it_spells()
    ensures { (w : ℕ) (i : Instr) → (instruction_of w ≡ Some i) ↔ Spells w i }
{}

/// The operands of the instruction of a word fit their fields.
pub fn an_instruction_of_a_word_is_encodable()
    ensures { (w : ℕ) (i : Instr) → w < 2 ^ 32 → instruction_of w ≡ Some i → IsEncodable i }
{}

/// No halfword is of two compressed rows, so none meets two.
pub fn compressed_rows_are_disjoint()
    ensures { AllPairs AreDisjoint compressed_rows }
{}

/// The expansion of a halfword is that of the row that it meets.
pub fn the_expansion_of_a_halfword_is_that_of_its_row()
    ensures { (h : ℕ) (i : Instr) → (expansion_of h ≡ Some i) ↔ Expands h i }
{}

/// A code that a row reserves expands to nothing.
pub fn a_reserved_code_expands_to_nothing()
    ensures { (h : ℕ) → IsReserved h → expansion_of h ≡ None }
{}

/// The operands of an expansion fit the fields of a word.
pub fn an_expansion_is_encodable()
    ensures { (h : ℕ) (i : Instr) → expansion_of h ≡ Some i → IsEncodable i }
{}

/// A hint expands to an instruction that changes no register, no memory, and no course of the program.
pub fn a_hint_expands_to_an_instruction_that_does_nothing()
    ensures { (h : ℕ) → IsHint h → IfSome (expansion_of h) DoesNothing }
{}

/// The immediate's bits of a layout are as many as the halfword's that hold them.
pub fn layouts_fill_their_places()
    ensures { IsTrue (are_filled compressed_rows) }
{}
