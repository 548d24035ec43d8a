//! An area of a node's memory.

ghost use Rattle.std.specs.Prelude.{◌≡◌};
ghost use Rattle.bsp_slots.specs.Area.{last_position};

/// An area of a node's memory: its first address and its length in bytes.
#[derive(Clone, Copy, Debug, PartialEq, Eq)]
pub struct Area {
    pub addr: u32,
    pub size: u32,
}

/// The position of the last entry of `addr`.
pub(crate) fn last_position(entries: &[Area], addr: u32) -> Option<usize>
    ensures { result ≡ last_position entries.now addr }
{
    entries.iter().rposition(|area| area.addr == addr)
}
