//! The table of the rows.

ghost use Rattle.rv_tables.specs.Rows.{encodings};
ghost use Rattle.rv_tables.specs.Tables.{AreRowsOf};

use crate::instr::{Form, Row};

/// The list of the rows, from which the table and the names follow, and most of the decoder and the encoder.
///
/// `listing!(GROUP..; MACRO [ARGUMENT])` calls a macro with the rows of these groups, or of `all`. After the argument come, for each group,
/// its form and its mask, and for each row the value under the mask, the instruction and its name.
macro_rules! listing {
    (@Upper $($then:tt)*) => {
        $crate::table::joined! { $($then)*
            Upper 0x7F:
            0x37 UpperOp::Lui "lui",
            0x17 UpperOp::Auipc "auipc";
        }
    };
    (@Jal $($then:tt)*) => {
        $crate::table::joined! { $($then)*
            Jal 0x7F:
            0x6F Instr::Jal "jal";
        }
    };
    (@Jalr $($then:tt)*) => {
        $crate::table::joined! { $($then)*
            Jalr 0x707F:
            0x67 Instr::Jalr "jalr";
        }
    };
    (@Branch $($then:tt)*) => {
        $crate::table::joined! { $($then)*
            Branch 0x707F:
            0x63 BranchOp::Beq "beq",
            0x1063 BranchOp::Bne "bne",
            0x4063 BranchOp::Blt "blt",
            0x5063 BranchOp::Bge "bge",
            0x6063 BranchOp::Bltu "bltu",
            0x7063 BranchOp::Bgeu "bgeu";
        }
    };
    (@Load $($then:tt)*) => {
        $crate::table::joined! { $($then)*
            Load 0x707F:
            0x3 LoadOp::Lb "lb",
            0x1003 LoadOp::Lh "lh",
            0x2003 LoadOp::Lw "lw",
            0x4003 LoadOp::Lbu "lbu",
            0x5003 LoadOp::Lhu "lhu";
        }
    };
    (@Store $($then:tt)*) => {
        $crate::table::joined! { $($then)*
            Store 0x707F:
            0x23 StoreOp::Sb "sb",
            0x1023 StoreOp::Sh "sh",
            0x2023 StoreOp::Sw "sw";
        }
    };
    (@I $($then:tt)*) => {
        $crate::table::joined! { $($then)*
            I 0x707F:
            0x13 IOp::Addi "addi",
            0x2013 IOp::Slti "slti",
            0x3013 IOp::Sltiu "sltiu",
            0x4013 IOp::Xori "xori",
            0x6013 IOp::Ori "ori",
            0x7013 IOp::Andi "andi";
        }
    };
    (@Fence $($then:tt)*) => {
        $crate::table::joined! { $($then)*
            Plain 0x707F:
            0xF PlainOp::Fence "fence",
            0x100F PlainOp::FenceI "fence.i";
        }
    };
    (@Shift $($then:tt)*) => {
        $crate::table::joined! { $($then)*
            Shift 0xFE00_707F:
            0x1013 ShiftOp::Slli "slli",
            0x5013 ShiftOp::Srli "srli",
            0x4000_5013 ShiftOp::Srai "srai";
        }
    };
    (@R $($then:tt)*) => {
        $crate::table::joined! { $($then)*
            R 0xFE00_707F:
            0x33 ROp::Add "add",
            0x4000_0033 ROp::Sub "sub",
            0x1033 ROp::Sll "sll",
            0x2033 ROp::Slt "slt",
            0x3033 ROp::Sltu "sltu",
            0x4033 ROp::Xor "xor",
            0x5033 ROp::Srl "srl",
            0x4000_5033 ROp::Sra "sra",
            0x6033 ROp::Or "or",
            0x7033 ROp::And "and",
            0x200_0033 ROp::Mul "mul",
            0x200_1033 ROp::Mulh "mulh",
            0x200_2033 ROp::Mulhsu "mulhsu",
            0x200_3033 ROp::Mulhu "mulhu",
            0x200_4033 ROp::Div "div",
            0x200_5033 ROp::Divu "divu",
            0x200_6033 ROp::Rem "rem",
            0x200_7033 ROp::Remu "remu";
        }
    };
    (@System $($then:tt)*) => {
        $crate::table::joined! { $($then)*
            Plain 0xFFFF_FFFF:
            0x73 PlainOp::Ecall "ecall",
            0x10_0073 PlainOp::Ebreak "ebreak";
        }
    };
    (all; $then:ident $argument:tt) => {
        $crate::table::listing! { Upper Jal Jalr Branch Load Store I Fence Shift R System; $then $argument }
    };
    ($group:ident $($more:ident)*; $then:ident $argument:tt) => {
        $crate::table::listing! { @$group [$($more)*] $then $argument }
    };
}

// Goes on with the next group, or calls the macro after the last one.
macro_rules! joined {
    ([] $then:ident $argument:tt $($rows:tt)*) => {
        $then! { $argument $($rows)* }
    };
    ([$group:ident $($more:ident)*] $then:ident $argument:tt $($rows:tt)*) => {
        $crate::table::listing! { @$group [$($more)*] $then $argument $($rows)* }
    };
}

pub(crate) use joined;
pub(crate) use listing;

/// How many rows there are.
pub(crate) const ROW_COUNT: usize = 49;

// The mask, value and form of each row.
macro_rules! table_of {
    ([] $($form:ident $mask:literal: $($value:literal $op:ident::$row:ident $name:literal),*;)*) => {
        [$($(Row { mask: $mask, value: $value, form: Form::$form },)*)*]
    };
}

static ROWS: [Row<Form>; ROW_COUNT] = listing!(all; table_of []);

/// The rows of RV32I, Zifencei and M: first those told by the opcode alone, then those by funct3 too, then those by
/// funct7 too, then the two of whole words; each of these groups in the order of the manual's listings.
#[tactic(auto, unfolding(crate::specs::Rows::encodings))]
pub fn rows() -> &'static [Row<Form>]
    ensures { AreRowsOf encodings result.now }
{
    &ROWS
}
