//! One page of a memory: private, or shared with other memories.

ghost use Rattle.std.specs.Prelude.{◌≡◌, ◌+◌, ◌*◌, ◌/◌, ◌%◌, true, false, IfOk};
ghost use Rattle.node_memory.specs.Table.{page_bytes, is_private, IsPageOfZeros};

use std::alloc::{AllocError, Allocator};
use std::sync::Arc;

/// The bytes of a page.
pub(crate) const PAGE: usize = 0x1000;

/// An address that is a multiple of four; for any other one, a number past all addresses.
// For speed: a processor turns the address right by two bits.
#[inline(always)]
pub(crate) fn aligned_by_four(addr: u32) -> usize
    ensures { result ≡ addr / 4 * 4 + addr % 4 * 4294967296 }
{
    (addr / 4 + addr % 4 * 0x4000_0000) as usize * 4
}

/// The bytes of a private page.
// For speed: they stand as far behind the place of the box as an `Arc` has its value behind the count, so that a load need not find out
// whose a page is.
#[derive(Drop)]
pub(crate) struct PrivateBytes {
    _count: usize,
    pub(crate) bytes: [u8; 0x1000],
}

/// A page's bytes. Only a private page is ever written; a shared one is the same for all that share it.
#[derive(Drop)]
pub(crate) enum Page<A: Allocator> {
    Private(Box<PrivateBytes, A>),
    Shared(Arc<[u8; 0x1000], A>),
}

impl<A: Allocator> Page<A> {
    /// A page of zeros that others may share.
    pub(crate) fn zeros(alloc: A) -> Result<Page<A>, AllocError>
        ensures { IfOk result (λ p. IsPageOfZeros p) }
    {
        Ok(Page::Shared(Arc::new(alloc, [0; 0x1000])?))
    }

    #[inline(always)]
    pub(crate) fn bytes(&self) -> &[u8; 0x1000]
        ensures { result.now ≡ page_bytes self.now }
    {
        match self {
            Page::Private(private) => &private.bytes,
            Page::Shared(bytes) => bytes,
        }
    }

    #[inline]
    pub(crate) fn is_private(&self) -> bool
        ensures { result ≡ is_private self.now }
    {
        match self {
            Page::Private(_) => true,
            Page::Shared(_) => false,
        }
    }

    /// A page of the same bytes that others may share: this one if it is shared, else a copy.
    pub(crate) fn share(&self, alloc: A) -> Result<Page<A>, AllocError>
        ensures bytes { IfOk result (λ p. page_bytes p ≡ page_bytes self.now) }
        ensures shared { IfOk result (λ p. is_private p ≡ false) }
    {
        match self {
            Page::Private(private) => Ok(Page::Shared(Arc::new(alloc, private.bytes)?)),
            Page::Shared(bytes) => Ok(Page::Shared(Arc::try_clone(bytes)?)),
        }
    }

    /// A page of the same bytes that is private.
    pub(crate) fn copy(&self, alloc: A) -> Result<Page<A>, AllocError>
        ensures bytes { IfOk result (λ p. page_bytes p ≡ page_bytes self.now) }
        ensures private { IfOk result (λ p. is_private p ≡ true) }
    {
        let private = PrivateBytes {
            _count: 0,
            bytes: *self.bytes(),
        };
        Ok(Page::Private(Box::new(alloc, private)?))
    }
}
