//! Extensions of the instruction set.

/// The extensions that a text in assembly language may use, and whose instructions a listing names, beside RV32IMC and Zifencei.
#[derive(Clone, Copy, Debug, PartialEq, Eq)]
pub struct Extensions {
    /// F and D, and of Zicsr what is on their registers.
    pub float: bool,
    /// A.
    pub atomic: bool,
}
