//! The text of the floating-point registers and fcsr.

ghost use Rattle.std.specs.Prelude.{◌≡◌, ◌<◌, ◌++◌, IfOk, string_bytes};
ghost use Rattle.debug_lines.specs.Floats.{float_blanks, named_float_lines, named_float_registers as named_registers_of};
ghost use Rattle.debug_lines.specs.Replies.{fcsr_line, flag_name, float_lines, float_registers as float_registers_of};

use crate::reply::entry_end;
use rv_listing::EightDigits;
use std::alloc::{AllocError, Allocator};
use std::fmt;

/// The fcsr of a node, and its registers of floating point, each by its number. It is an error only if memory is refused.
pub(crate) fn float_registers<A: Allocator>(
    alloc: A,
    rank: u32,
    fcsr: u32,
    f: &[u64],
) -> Result<String<A>, AllocError>
    ensures { IfOk result (λ text. string_bytes text ≡ float_registers_of rank fcsr f.now) }
{
    let mut text = fcsr_line(alloc, rank, fcsr)?;
    add_floats(&mut text, f)?;
    Ok(text)
}

/// The fcsr of a node, and its registers of floating point, each by its number and its name. It is an error only if memory is refused.
pub fn named_float_registers<A: Allocator>(
    alloc: A,
    rank: u32,
    fcsr: u32,
    f: &[u64],
) -> Result<String<A>, AllocError>
    ensures { IfOk result (λ text. string_bytes text ≡ named_registers_of rank fcsr f.now) }
{
    let mut text = fcsr_line(alloc, rank, fcsr)?;
    add_named(&mut text, f)?;
    Ok(text)
}

/// The line of the fcsr of a node.
fn fcsr_line<A: Allocator>(alloc: A, rank: u32, fcsr: u32) -> Result<String<A>, AllocError>
    ensures { IfOk result (λ text. string_bytes text ≡ fcsr_line rank fcsr) }
{
    let digits = EightDigits(fcsr);
    let frm = fcsr / 32 % 8;
    let flags = FlagNames(fcsr);
    format!(in alloc; "rank {rank} fcsr {digits} frm {frm} flags{flags}\n")
}

/// Adds the lines of registers to a text, four in a line.
fn add_floats<A: Allocator>(text: &mut String<A>, f: &[u64]) -> Result<(), AllocError>
    ensures { IfOk result (λ _. string_bytes text.new ≡ string_bytes text.old ++ float_lines f.now) }
{
    for (at, value) in f.iter().enumerate() {
        let end = entry_end(4, f.len(), at);
        write!(text, "f{at}={}{end}", SixteenDigits(*value))?;
    }
    Ok(())
}

/// Adds the lines of registers to a text with their names, two in a line.
fn add_named<A: Allocator>(text: &mut String<A>, f: &[u64]) -> Result<(), AllocError>
    ensures { IfOk result (λ _. string_bytes text.new ≡ string_bytes text.old ++ named_float_lines f.now) }
{
    for (at, value) in f.iter().enumerate() {
        let before = blanks(at);
        let label = Label(at);
        let end = entry_end(2, f.len(), at);
        write!(text, "{before}{label}={}{end}", SixteenDigits(*value))?;
    }
    Ok(())
}

/// What is before the label of a register, so that all are eight wide.
fn blanks(register: usize) -> &'static str
    ensures { result.now ≡ float_blanks register }
{
    match register {
        0..=9 => "  ",
        26 | 27 | 30 | 31 => "",
        _ => " ",
    }
}

/// A pattern of 64 bits. Its text has sixteen lower-case hexadecimal digits.
#[derive(Clone, Copy)]
struct SixteenDigits(u64);

impl fmt::Display for SixteenDigits {
    ghost use Rattle.std.specs.Prelude.{Some};
    ghost use Rattle.debug_lines.specs.Replies.{sixteen_digits};

    ghost output = { λ n. Some (sixteen_digits n.0) };

    #[tactic(auto, using(rv_listing::proofs::Hexadecimal::padded_is_hexadecimal_in))]
    fn fmt<W: fmt::Write>(&self, f: &mut fmt::Formatter<W>) -> fmt::Result {
        let pattern = self.0;
        write!(f, "{pattern:016x}")
    }
}

/// The value of fcsr, which displays as the names of the flags that are raised, each after a space.
#[derive(Clone, Copy)]
struct FlagNames(u32);

impl fmt::Display for FlagNames {
    ghost use Rattle.std.specs.Prelude.{Some};
    ghost use Rattle.debug_lines.specs.Replies.{flag_names};

    ghost output = { λ fcsr. Some (flag_names fcsr.0) };

    fn fmt<W: fmt::Write>(&self, f: &mut fmt::Formatter<W>) -> fmt::Result {
        let fcsr = self.0;
        if fcsr % 32 == 0 {
            return write!(f, " -");
        }
        let invalid = flag_name(fcsr, 16, " NV");
        let by_zero = flag_name(fcsr, 8, " DZ");
        let overflow = flag_name(fcsr, 4, " OF");
        let underflow = flag_name(fcsr, 2, " UF");
        let inexact = flag_name(fcsr, 1, " NX");
        write!(f, "{invalid}{by_zero}{overflow}{underflow}{inexact}")
    }
}

/// The name of the flag that has a bit of fcsr, if it is raised.
fn flag_name(fcsr: u32, bit: u32, name: &'static str) -> &'static str
    requires { 0 < bit }
    ensures { result.now ≡ flag_name fcsr bit name.now }
{
    if fcsr / bit % 2 == 1 { name } else { "" }
}

/// The number of a register, which displays as its label: `f10/fa0`.
#[derive(Clone, Copy)]
struct Label(usize);

impl fmt::Display for Label {
    ghost use Rattle.std.specs.Prelude.{Some};
    ghost use Rattle.debug_lines.specs.Floats.{float_label};

    ghost output = { λ register. Some (float_label register.0) };

    fn fmt<W: fmt::Write>(&self, f: &mut fmt::Formatter<W>) -> fmt::Result {
        write!(f, "f{}/{}", self.0, FloatName(self.0))
    }
}

/// The number of a register, which displays as the name that programs have for it.
#[derive(Clone, Copy)]
struct FloatName(usize);

impl fmt::Display for FloatName {
    ghost use Rattle.std.specs.Prelude.{Some};
    ghost use Rattle.debug_lines.specs.Floats.{float_name};

    ghost output = { λ register. Some (float_name register.0) };

    fn fmt<W: fmt::Write>(&self, f: &mut fmt::Formatter<W>) -> fmt::Result {
        let number = self.0;
        match number {
            0..=7 => write!(f, "ft{number}"),
            8..=9 => write!(f, "fs{}", number - 8),
            10..=17 => write!(f, "fa{}", number - 10),
            18..=27 => write!(f, "fs{}", number - 16),
            _ => write!(f, "ft{}", number - 20),
        }
    }
}
