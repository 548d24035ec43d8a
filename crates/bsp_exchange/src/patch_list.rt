//! The trait of lists of bytes that wait to land in one memory.

ghost use Rattle.std.specs.Prelude.{◌≡◌, ℕ, ◌+◌, ◌<◌, ◌≤◌, ◌^◌, Bool, List, length, take, slice_get, OnOk, Some, IfSome};
ghost use Rattle.node_core.specs.declared.state.State.TheVariants.{Synced};
ghost use Rattle.node_memory.specs.Pages.{KeepsPrivate, Owns};
ghost use Rattle.bsp_exchange.specs.Arrivals.{LieIn};
ghost use Rattle.bsp_exchange.specs.Parts.{OwnsEach, Patch, with_patches};

use crate::span::Span;
use node_core::Node;
use std::alloc::{AllocError, Allocator};

/// Bytes that wait to land in one node's memory: patches, each an address and its bytes, in the order in which they land.
pub(crate) trait PatchList {
    ghost patches: { Self → List Patch };

    /// How many patches there are.
    fn count(&self) -> usize
        ensures { result ≡ length (patches self.now) };

    /// Where the bytes of the patch at a place land.
    fn addr(&self, place: usize) -> u32
        requires { place < length (patches self.now) }
        ensures { (p : Patch) → slice_get (patches self.now) place ≡ Some p → result ≡ p.addr };

    /// The bytes of the patch at a place.
    fn bytes(&self, place: usize) -> &[u8]
        requires { place < length (patches self.now) }
        ensures { (p : Patch) → slice_get (patches self.now) place ≡ Some p → result.now ≡ p.bytes };

    /// Sixteen bytes of which the first are those of the patch at a place, and how many they are, if patches are kept so.
    fn few(&self, place: usize) -> Option<([u8; 16], u32)>
        requires { place < length (patches self.now) }
        ensures most { IfSome result (λ few. (few.1 ≤ 16) × (length few.0 ≡ 16)) }
        ensures first { (p : Patch) → slice_get (patches self.now) place ≡ Some p → IfSome result (λ few. take few.1 few.0 ≡ p.bytes) };
}

/// The span of the ranges in which they come to lie, all of which lie in a memory of `size` bytes.
fn span_of<P: PatchList>(patches: &P, size: u32) -> Span
    requires most { size ≤ 2 ^ 31 }
    requires within { LieIn size (P.patches patches.now) }
    ensures end { result.end ≤ size }
    ensures has { (private : List Bool)
        → ((addr len : ℕ) → result.low ≤ addr → addr + len ≤ result.end → Owns private addr len)
        → OwnsEach private (P.patches patches.now) }
{
    let mut span = Span::of_none();
    for place in 0..patches.count() {
        span = span.with(patches.addr(place), patches.bytes(place).len() as u32);
    }
    span
}

/// Makes the pages in which they come to lie private. They lie in its memory.
// For speed: their span is looked at first. If it lies in private pages, or in one page, none of them is looked at by itself.
#[inline(never)]
pub(crate) fn prepare<P: PatchList, A: Allocator + Copy>(
    patches: &P,
    node: &mut Node<A>,
) -> Result<(), AllocError>
    requires within { LieIn (length node.old.node.hart.memory) (P.patches patches.now) }
    ensures node { node.new.node ≡ node.old.node }
    ensures ready { node.new.ready ≡ node.old.ready }
    ensures private { KeepsPrivate node.old.private node.new.private }
    ensures ok { OnOk result (OwnsEach node.new.private (P.patches patches.now)) }
{
    let span = span_of(patches, node.memory().size());
    if span.is_owned_by(node.memory()) {
        return Ok(());
    }
    if span.is_in_one_page() {
        return node.prepare_land(span.low(), span.len());
    }
    for place in 0..patches.count() {
        node.prepare_land(patches.addr(place), patches.bytes(place).len() as u32)?;
    }
    Ok(())
}

/// Lands them in the memory of a node that waits, in private pages. It stands by itself, so that its loop has the registers.
#[inline(never)]
pub(crate) fn land<P: PatchList, A: Allocator + Copy>(patches: &P, node: &mut Node<A>)
    requires synced { node.old.node.state ≡ Synced }
    requires private { OwnsEach node.old.private (P.patches patches.now) }
    ensures { node.new ≡ record node.old { node = with_patches (P.patches patches.now) node.old.node } }
{
    for place in 0..patches.count() {
        let addr = patches.addr(place);
        match patches.few(place) {
            Some(few) => {
                let room = few.0;
                node.land_few(addr, room, few.1);
            }
            None => node.land(addr, patches.bytes(place)),
        }
    }
}
