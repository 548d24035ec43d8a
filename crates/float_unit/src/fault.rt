//! Why an instruction is not executed.

/// Why an instruction of floating point is not carried out. Nothing has changed then.
#[derive(Clone, Copy, Debug, PartialEq, Eq)]
pub enum FloatFault {
    /// It asks for the rounding mode in `frm`, and there is none.
    IllegalInstruction,
}
