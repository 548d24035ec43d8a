//! A push or a pop of this superstep, as it was made.

ghost use Rattle.std.specs.Prelude.{◌≡◌, ◌↔◌, IsTrue, map};
ghost use Rattle.bsp_slots.specs.Change.{removed_position};

use crate::area::Area;

/// A push or a pop of this superstep, as it was made.
#[derive(Clone, Copy)]
pub enum Change {
    Push(Area),
    Pop { addr: u32, slot: usize },
}

impl Change {
    /// The position that a pop removed.
    fn removed_position(&self) -> Option<usize>
        ensures { result ≡ removed_position self.now }
    {
        match self {
            Change::Push(_) => None,
            Change::Pop { slot, .. } => Some(*slot),
        }
    }
}

/// Whether two sequences agree, pushes without their areas and pops by the positions that they removed.
pub(crate) fn have_same_shape(mine: &[Change], theirs: &[Change]) -> bool
    ensures { IsTrue result ↔ (map removed_position mine.now ≡ map removed_position theirs.now) }
{
    if mine.len() != theirs.len() {
        return false;
    }
    mine.iter()
        .zip(theirs)
        .all(|(a, b)| a.removed_position() == b.removed_position())
}
