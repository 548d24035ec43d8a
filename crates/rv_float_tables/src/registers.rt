//! The names of the floating-point registers.

ghost use Rattle.std.specs.Prelude.{◌≡◌};
ghost use Rattle.std.specs.Option.{option_map};
ghost use Rattle.rv_tables.specs.Operands.{IsRegister, IsFound};
ghost use Rattle.rv_float_tables.specs.Registers.{float_register_number, float_register_name};

use rv_tables::named;

static NAMES: [(&str, u8); 64] = [
    ("f0", 0),
    ("f1", 1),
    ("f2", 2),
    ("f3", 3),
    ("f4", 4),
    ("f5", 5),
    ("f6", 6),
    ("f7", 7),
    ("f8", 8),
    ("f9", 9),
    ("f10", 10),
    ("f11", 11),
    ("f12", 12),
    ("f13", 13),
    ("f14", 14),
    ("f15", 15),
    ("f16", 16),
    ("f17", 17),
    ("f18", 18),
    ("f19", 19),
    ("f20", 20),
    ("f21", 21),
    ("f22", 22),
    ("f23", 23),
    ("f24", 24),
    ("f25", 25),
    ("f26", 26),
    ("f27", 27),
    ("f28", 28),
    ("f29", 29),
    ("f30", 30),
    ("f31", 31),
    ("ft0", 0),
    ("ft1", 1),
    ("ft2", 2),
    ("ft3", 3),
    ("ft4", 4),
    ("ft5", 5),
    ("ft6", 6),
    ("ft7", 7),
    ("fs0", 8),
    ("fs1", 9),
    ("fa0", 10),
    ("fa1", 11),
    ("fa2", 12),
    ("fa3", 13),
    ("fa4", 14),
    ("fa5", 15),
    ("fa6", 16),
    ("fa7", 17),
    ("fs2", 18),
    ("fs3", 19),
    ("fs4", 20),
    ("fs5", 21),
    ("fs6", 22),
    ("fs7", 23),
    ("fs8", 24),
    ("fs9", 25),
    ("fs10", 26),
    ("fs11", 27),
    ("ft8", 28),
    ("ft9", 29),
    ("ft10", 30),
    ("ft11", 31),
];

/// The number of the floating-point register with a name, or none if no register has it.
///
/// The names are `f0` to `f31`, with no leading zero, and those of the calling convention: `ft0` to `ft11`, `fs0` to `fs11`,
/// `fa0` to `fa7`.
pub fn float_reg_number(name: &[u8]) -> Option<u8>
    ensures { IsFound IsRegister (float_register_number name.now) result }
{
    named(&NAMES, name)
}

/// The name that a floating-point register has in the calling convention, or none past register 31.
#[tactic(auto, unfolding(crate::specs::Registers::convention_names))]
pub fn float_reg_name(number: u8) -> Option<&'static str>
    ensures { option_map (λ name. name.now) result ≡ float_register_name number }
{
    let name = match number {
        0 => "ft0",
        1 => "ft1",
        2 => "ft2",
        3 => "ft3",
        4 => "ft4",
        5 => "ft5",
        6 => "ft6",
        7 => "ft7",
        8 => "fs0",
        9 => "fs1",
        10 => "fa0",
        11 => "fa1",
        12 => "fa2",
        13 => "fa3",
        14 => "fa4",
        15 => "fa5",
        16 => "fa6",
        17 => "fa7",
        18 => "fs2",
        19 => "fs3",
        20 => "fs4",
        21 => "fs5",
        22 => "fs6",
        23 => "fs7",
        24 => "fs8",
        25 => "fs9",
        26 => "fs10",
        27 => "fs11",
        28 => "ft8",
        29 => "ft9",
        30 => "ft10",
        31 => "ft11",
        _ => return None,
    };
    Some(name)
}
