//! Laws of the rows and of the words that they encode. There is nothing to run: a caller calls one for what it ensures.

ghost use Rattle.std.specs.Prelude.{◌≡◌, ◌↔◌, ℕ, map, Contains, List, Some, None, IsSome, IsTrue};
ghost use Rattle.std.specs.List.{AllPairs};
ghost use Rattle.rv_tables.specs.Codes.{decoded};
ghost use Rattle.rv_tables.specs.Compressed.{compressed_rows};
ghost use Rattle.rv_tables.specs.CompressedTables.{CompressedRow, AreDisjoint, are_filled};
ghost use Rattle.rv_tables.specs.Rows.{Encoding, encodings};
ghost use Rattle.rv_tables.specs.Tables.{IsDisjoint};
ghost use Rattle.rv_tables.specs.declared.code.Code.{Code};
ghost use Rattle.rv_tables.specs.declared.instr.Instr.{Instr};
ghost use Rattle.rv_float_tables.specs.Codes.{float_decoded};
ghost use Rattle.rv_float_tables.specs.Compressed.{float_compressed_rows, float_expansion_of, Expands};
ghost use Rattle.rv_float_tables.specs.declared.instr.FloatInstr.{FloatInstr};
ghost use Rattle.rv_float_tables.specs.Operands.{IsEncodable};
ghost use Rattle.rv_float_tables.specs.Registers.{float_register_name, float_register_number};
ghost use Rattle.rv_float_tables.specs.Rows.{FloatEncoding, float_encodings, float_instruction_of, IsReserved, Spells};

/// No word meets two rows.
pub fn rows_are_disjoint()
    ensures { AllPairs IsDisjoint (map (λ e. e.row) float_encodings) }
{}

/// No word meets a row of floating point and one of whole numbers.
pub fn rows_are_apart_from_those_of_integers()
    ensures { (e : FloatEncoding) (r : Encoding) → Contains float_encodings e → Contains encodings r → IsDisjoint e.row r.row }
{}

/// A word spells at most one instruction.
pub fn a_word_spells_at_most_one_instruction()
    ensures { (w : ℕ) (i j : FloatInstr) → Spells w i → Spells w j → i ≡ j }
{}

/// The instruction of a word is the one that it spells.
pub fn the_instruction_of_a_word_is_the_one_that_it_spells()
    ensures { (w : ℕ) (i : FloatInstr) → (float_instruction_of w ≡ Some i) ↔ Spells w i }
{}

/// A word that meets a row, but with a reserved rounding mode, or a CSR that is not of floating point, has no instruction.
pub fn a_reserved_word_has_no_instruction()
    ensures { (w : ℕ) → IsReserved w → float_instruction_of w ≡ None }
{}

/// The operands of the instruction of a word fit their fields.
pub fn an_instruction_of_a_word_is_encodable()
    ensures { (w : ℕ) (i : FloatInstr) → float_instruction_of w ≡ Some i → IsEncodable i }
{}

/// No halfword is of two compressed rows.
pub fn compressed_rows_are_disjoint()
    ensures { AllPairs AreDisjoint float_compressed_rows }
{}

/// No halfword is of a compressed row of floating point and of one of whole numbers, not even at a code that this one reserves.
pub fn compressed_rows_are_apart_from_those_of_integers()
    ensures { (r : CompressedRow FloatInstr) (s : CompressedRow Instr) → Contains float_compressed_rows r
        → Contains compressed_rows s → AreDisjoint r s }
{}

/// The expansion of a halfword is that of the row that it meets.
pub fn the_expansion_of_a_halfword_is_that_of_its_row()
    ensures { (h : ℕ) (i : FloatInstr) → (float_expansion_of h ≡ Some i) ↔ Expands h i }
{}

/// The operands of an expansion fit the fields of a word.
pub fn an_expansion_is_encodable()
    ensures { (h : ℕ) (i : FloatInstr) → float_expansion_of h ≡ Some i → IsEncodable i }
{}

/// The immediate's bits of a layout are as many as the halfword's that hold them.
pub fn layouts_fill_their_places()
    ensures { IsTrue (are_filled float_compressed_rows) }
{}

/// A code with an instruction of floating point has none of whole numbers, so a code may be looked up in either table first.
pub fn a_code_is_in_one_table()
    ensures { (c : Code) → IsSome (float_decoded c) → decoded c ≡ None }
{}

/// A register has the number that its name in the calling convention has.
pub fn a_name_and_its_number_are_of_one_register()
    ensures { (n : ℕ) (name : List ℕ) → float_register_name n ≡ Some name → float_register_number name ≡ Some n }
{}
