//! How memories begin: from an image, or as another's share.

ghost use Rattle.std.specs.Prelude.{◌≡◌, ◌+◌, ◌*◌, ◌/◌, ◌%◌, ◌<◌, ◌≤◌, false, IsTrue, length, replicate, slice_set, OnOk, IfOk};
ghost use Rattle.node_memory.specs.Access.{IsMade};
ghost use Rattle.node_memory.specs.Bytes.{is_memory_size, with_bytes};
ghost use Rattle.node_memory.specs.Image.{with_segment, ends_past, IsSegment};
ghost use Rattle.node_memory.specs.Pages.{none_private, IsPrivate, SharesZeros};
ghost use Rattle.node_memory.specs.Table.{IsPageOfZeros};

use super::{Memory, MemoryError, is_memory_size};
use crate::image::{Image, Segment};
use crate::page::{PAGE, Page};
use std::alloc::{AllocError, Allocator};

impl<A: Allocator + Copy> Memory<A> {
    /// A memory of `size` bytes that holds `image`, and 0 where no segment reaches. No page is private.
    ///
    /// # Errors
    /// As [`MemoryError`] has them.
    pub fn new(alloc: A, image: &Image<A>, size: u32) -> Result<Memory<A>, MemoryError>
        ensures { IsMade result image.now size }
    {
        if !is_memory_size(size) {
            return Err(MemoryError::BadSize);
        }
        if image.ends_past(size) {
            return Err(MemoryError::SegmentOutside);
        }
        let zeros = Page::zeros(alloc)?;
        let mut laid = Memory::zeros(alloc, &zeros, size as usize / PAGE)?;
        for segment in image.segments.as_slice() {
            laid.lay(segment, &zeros)?;
        }
        laid.share_pages()?;
        Ok(laid)
    }

    /// A memory of the same bytes, of which no page is private: the private pages are copied, and the others shared. So it
    /// takes a word or two for each page, and a page for each private one.
    pub fn share(&self, alloc: A) -> Result<Memory<A>, AllocError>
        ensures { IfOk result (λ m. m ≡ record { bytes = self.now.bytes; private = none_private (length self.now.bytes) }) }
    {
        let mut pages = Vec::with_capacity(alloc, self.pages.len())?;
        for page in self.pages.as_slice() {
            pages.push(page.share(alloc)?)?;
        }
        Ok(Memory { alloc, pages })
    }

    /// Makes each page one that others may share: a copy takes the place of a private one. No byte changes.
    fn share_pages(&mut self) -> Result<(), AllocError>
        ensures { OnOk result (self.new ≡ record { bytes = self.old.bytes; private = none_private (length self.old.bytes) }) }
    {
        for page in 0..self.pages.len() {
            self.share_page(page)?;
        }
        Ok(())
    }

    /// Makes a page one that others may share.
    fn share_page(&mut self, page: usize) -> Result<(), AllocError>
        requires { page < length self.old.private }
        ensures bytes { OnOk result (self.new.bytes ≡ self.old.bytes) }
        ensures private { OnOk result (self.new.private ≡ slice_set self.old.private page false) }
    {
        if self.pages[page].is_private() {
            self.pages[page] = self.pages[page].share(self.alloc)?;
        }
        Ok(())
    }

    /// A memory of so many pages, all of them the one page of zeros.
    fn zeros(alloc: A, zeros: &Page<A>, count: usize) -> Result<Memory<A>, AllocError>
        requires valid { IsTrue (is_memory_size (count * 4096)) }
        requires zeros { IsPageOfZeros zeros.now }
        ensures { IfOk result (λ m. m ≡ record { bytes = replicate (count * 4096) 0; private = replicate count false }) }
    {
        let mut pages = Vec::with_capacity(alloc, count)?;
        for _ in 0..count {
            pages.push(zeros.share(alloc)?)?;
        }
        Ok(Memory { alloc, pages })
    }

    /// Lays a segment: its bytes, and zeros up to its size. Memory is written where there are bytes, now or of an earlier segment; so
    /// the time does not go with the size.
    fn lay(&mut self, segment: &Segment<A>, zeros: &Page<A>) -> Result<(), AllocError>
        requires fits { ends_past (length self.old.bytes) segment.now ≡ false }
        requires zeros { IsPageOfZeros zeros.now }
        requires rest { SharesZeros self.old }
        ensures after { OnOk result (self.new.bytes ≡ with_segment self.old.bytes segment.now) }
        ensures rest { OnOk result (SharesZeros self.new) }
        ensures valid { IsSegment segment.now }
    {
        if segment.size == 0 {
            return Ok(());
        }
        let bytes = segment.bytes.as_slice();
        self.make_private(segment.addr, bytes.len() as u32)?;
        self.write_owned(segment.addr, bytes);
        self.clear(
            segment.addr as usize + bytes.len(),
            segment.size as usize - bytes.len(),
            zeros,
        )
    }

    /// Makes the `len` bytes from `addr` on zeros, page by page. In a shared page they are.
    fn clear(&mut self, addr: usize, len: usize, zeros: &Page<A>) -> Result<(), AllocError>
        requires within { addr + len ≤ length self.old.bytes }
        requires zeros { IsPageOfZeros zeros.now }
        requires rest { SharesZeros self.old }
        ensures bytes { OnOk result (self.new.bytes ≡ with_bytes self.old.bytes addr (replicate len 0)) }
        ensures rest { OnOk result (SharesZeros self.new) }
    {
        self.recall_size();
        if len == 0 {
            return Ok(());
        }
        let end = addr + len;
        for page in addr / PAGE..(end - 1) / PAGE + 1 {
            if !self.shares(page) {
                let from = addr.max(page * PAGE);
                let to = end.min(page * PAGE + PAGE);
                self.clear_window(from, to - from, zeros)?;
            }
        }
        Ok(())
    }

    /// Makes the `len` bytes from `addr` on zeros, which lie within one private page. A page that is cleared as a whole
    /// is the page of zeros then.
    // For speed: it stands out of line, so that `clear` passes over a shared page with one test.
    #[cold]
    #[inline(never)]
    fn clear_window(&mut self, addr: usize, len: usize, zeros: &Page<A>) -> Result<(), AllocError>
        requires within { addr + len ≤ length self.old.bytes }
        requires one_page { addr % 4096 + len ≤ 4096 }
        requires private { IsPrivate self.old.private (addr / 4096) }
        requires zeros { IsPageOfZeros zeros.now }
        requires rest { SharesZeros self.old }
        ensures bytes { OnOk result (self.new.bytes ≡ with_bytes self.old.bytes addr (replicate len 0)) }
        ensures rest { OnOk result (SharesZeros self.new) }
        ensures pages { OnOk result (length self.new.private ≡ length self.old.private) }
    {
        if len == PAGE {
            self.clear_page(addr / PAGE, zeros)?;
        } else {
            self.write_window(addr, &zeros.bytes()[..len]);
        }
        Ok(())
    }

    /// Makes a page the one of zeros.
    fn clear_page(&mut self, page: usize, zeros: &Page<A>) -> Result<(), AllocError>
        requires within { page < length self.old.private }
        requires zeros { IsPageOfZeros zeros.now }
        ensures bytes { OnOk result
            (self.new.bytes ≡ with_bytes self.old.bytes (page * 4096) (replicate 4096 0)) }
        ensures private { OnOk result (self.new.private ≡ slice_set self.old.private page false) }
    {
        self.pages[page] = zeros.share(self.alloc)?;
        Ok(())
    }
}
