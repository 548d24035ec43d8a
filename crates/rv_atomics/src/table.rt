//! The table of the rows.

ghost use Rattle.rv_tables.specs.Tables.{AreRowsOf};
ghost use Rattle.rv_atomics.specs.Rows.{atomic_encodings};

use crate::instr::AtomicForm;
use rv_tables::Row;

static ROWS: [Row<AtomicForm>; 11] = [
    Row {
        mask: 0xF9F0_707F,
        value: 0x1000_202F,
        form: AtomicForm::LoadReserved,
    },
    Row {
        mask: 0xF800_707F,
        value: 0x1800_202F,
        form: AtomicForm::StoreConditional,
    },
    Row {
        mask: 0xF800_707F,
        value: 0x800_202F,
        form: AtomicForm::Amo,
    },
    Row {
        mask: 0xF800_707F,
        value: 0x202F,
        form: AtomicForm::Amo,
    },
    Row {
        mask: 0xF800_707F,
        value: 0x2000_202F,
        form: AtomicForm::Amo,
    },
    Row {
        mask: 0xF800_707F,
        value: 0x6000_202F,
        form: AtomicForm::Amo,
    },
    Row {
        mask: 0xF800_707F,
        value: 0x4000_202F,
        form: AtomicForm::Amo,
    },
    Row {
        mask: 0xF800_707F,
        value: 0x8000_202F,
        form: AtomicForm::Amo,
    },
    Row {
        mask: 0xF800_707F,
        value: 0xA000_202F,
        form: AtomicForm::Amo,
    },
    Row {
        mask: 0xF800_707F,
        value: 0xC000_202F,
        form: AtomicForm::Amo,
    },
    Row {
        mask: 0xF800_707F,
        value: 0xE000_202F,
        form: AtomicForm::Amo,
    },
];

/// The rows of A, in the order of the manual's listing.
#[tactic(auto, unfolding(crate::specs::Rows::atomic_encodings))]
pub fn rows() -> &'static [Row<AtomicForm>]
    ensures { AreRowsOf atomic_encodings result.now }
{
    &ROWS
}
