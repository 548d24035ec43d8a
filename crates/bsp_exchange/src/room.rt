//! Makes room for what is gathered.

ghost use Rattle.std.specs.Prelude.{◌≡◌, ◌<◌, OnOk, vec_len, vec_capacity};

use std::alloc::{AllocError, Allocator};

/// Makes room for an element more where there is none left: the first time for as many as are expected, so that they are not moved
/// while they come, and after that for twice as many as before.
#[cold]
#[inline(never)]
pub(crate) fn grow<T, A: Allocator>(
    elements: &mut Vec<T, A>,
    expected: usize,
) -> Result<(), AllocError>
    ensures items { elements.new.items ≡ elements.old.items }
    ensures room { OnOk result (vec_len elements.new < vec_capacity elements.new) }
{
    let more = if elements.is_empty() {
        expected.max(1)
    } else {
        1
    };
    elements.reserve(more)
}
