//! Registers with the names that programs have for them.

ghost use Rattle.std.specs.Prelude.{◌≡◌, ◌++◌, IfOk, string_bytes};
ghost use Rattle.debug_lines.specs.Named.{blanks as blanks_before, named_lines, named_registers as named_registers_of};

use crate::reply::{entry_end, node_line};
use node_core::State;
use rv_listing::EightDigits;
use std::alloc::{AllocError, Allocator};
use std::fmt;

/// A node, and its registers, each by its number and its name. It is an error only if memory is refused.
pub fn named_registers<A: Allocator>(
    alloc: A,
    rank: u32,
    pc: u32,
    ticks: u64,
    state: State,
    x: &[u32],
) -> Result<String<A>, AllocError>
    ensures { IfOk result (λ text. string_bytes text ≡ named_registers_of rank pc ticks state x.now) }
{
    let mut text = node_line(alloc, rank, pc, ticks, state)?;
    add_named(&mut text, x)?;
    Ok(text)
}

/// Adds the lines of registers to a text, four in a line.
fn add_named<A: Allocator>(text: &mut String<A>, x: &[u32]) -> Result<(), AllocError>
    ensures { IfOk result (λ _. string_bytes text.new ≡ string_bytes text.old ++ named_lines x.now) }
{
    for (at, value) in x.iter().enumerate() {
        let before = blanks(at);
        let label = Label(at);
        let end = entry_end(4, x.len(), at);
        write!(text, "{before}{label}={}{end}", EightDigits(*value))?;
    }
    Ok(())
}

/// What is before the label of a register, so that all are seven wide.
fn blanks(register: usize) -> &'static str
    ensures { result.now ≡ blanks_before register }
{
    match register {
        0 | 26 | 27 => "",
        1..=9 => "  ",
        _ => " ",
    }
}

/// The number of a register, which displays as its label: `x10/a0`.
#[derive(Clone, Copy)]
struct Label(usize);

impl fmt::Display for Label {
    ghost use Rattle.std.specs.Prelude.{Some};
    ghost use Rattle.debug_lines.specs.Named.{label};

    ghost output = { λ register. Some (label register.0) };

    fn fmt<W: fmt::Write>(&self, f: &mut fmt::Formatter<W>) -> fmt::Result {
        write!(f, "x{}/{}", self.0, RegisterName(self.0))
    }
}

/// The number of a register, which displays as the name that programs have for it.
#[derive(Clone, Copy)]
struct RegisterName(usize);

impl fmt::Display for RegisterName {
    ghost use Rattle.std.specs.Prelude.{Some};
    ghost use Rattle.debug_lines.specs.Named.{register_name};

    ghost output = { λ register. Some (register_name register.0) };

    fn fmt<W: fmt::Write>(&self, f: &mut fmt::Formatter<W>) -> fmt::Result {
        let number = self.0;
        match number {
            0 => f.write_str("zero"),
            1 => f.write_str("ra"),
            2 => f.write_str("sp"),
            3 => f.write_str("gp"),
            4 => f.write_str("tp"),
            5..=7 => write!(f, "t{}", number - 5),
            8..=9 => write!(f, "s{}", number - 8),
            10..=17 => write!(f, "a{}", number - 10),
            18..=27 => write!(f, "s{}", number - 16),
            _ => write!(f, "t{}", number - 25),
        }
    }
}
