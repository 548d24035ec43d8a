//! Images, which a loader or an assembler makes and from which a memory starts.

ghost use Rattle.std.specs.Prelude.{◌≡◌};

use list_vec::ListVec;
use std::alloc::Allocator;
use std::marker::Model;

/// Bytes from an address on, and zeros after them up to `size` bytes in all (System V ABI, "Program Header").
///
/// It has no more bytes than its size, and ends within the addresses of 32 bits.
#[derive(Drop)]
pub struct Segment<A: Allocator> {
    pub addr: u32,
    pub bytes: ListVec<u8, A>,
    pub size: u32,
}

impl<A: Allocator> Model for Segment<A> {
    ghost use Rattle.node_memory.specs.Image.{Segment as SegmentValue, IsSegment};

    ghost Value = { SegmentValue };

    ghost view = { λ s. record { addr = s.addr; bytes = s.bytes; size = s.size } };

    ghost invariant = { λ s. IsSegment (record { addr = s.addr; bytes = s.bytes; size = s.size }) };
}

impl<A: Allocator> Segment<A> {
    ghost use Rattle.node_memory.specs.Image.{ends_past};

    /// Whether the segment has some size and ends past a memory of `size` bytes.
    fn ends_past(&self, size: u32) -> bool
        ensures { result ≡ ends_past size self.now }
    {
        self.size > 0 && u64::from(self.addr) + u64::from(self.size) > u64::from(size)
    }
}

/// A program: where it starts, and its segments. If two segments cover an address, the later one counts.
///
/// It has at most 65,534 segments, with at most 2^28 bytes in all.
#[derive(Drop)]
pub struct Image<A: Allocator> {
    pub entry: u32,
    pub segments: ListVec<Segment<A>, A>,
}

impl<A: Allocator> Model for Image<A> {
    ghost use Rattle.node_memory.specs.Image.{Image as ImageValue, IsWithinLimits};

    ghost Value = { ImageValue };

    ghost view = { λ i. record { entry = i.entry; segments = i.segments } };

    ghost invariant = { λ i. IsWithinLimits (record { entry = i.entry; segments = i.segments }) };
}

impl<A: Allocator> Image<A> {
    ghost use Rattle.node_memory.specs.Image.{is_segment_outside};

    /// Whether a segment of some size ends past a memory of `size` bytes.
    pub(crate) fn ends_past(&self, size: u32) -> bool
        ensures { result ≡ is_segment_outside self.now size }
    {
        let segments = self.segments.as_slice();
        segments.iter().any(|segment| segment.ends_past(size))
    }
}
