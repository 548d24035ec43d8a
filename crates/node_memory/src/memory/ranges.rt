//! Reads of ranges, page by page.

ghost use Rattle.std.specs.Prelude.{◌≡◌, ◌≤◌, ◌++◌, IsTrue, length, take, OnOk, OnErr, IfOk, IfSome};
ghost use Rattle.node_memory.specs.Access.{IsRead};
ghost use Rattle.node_memory.specs.Bytes.{fits, bytes_at};

use super::{Memory, ReadError};
use crate::page::PAGE;
use shared_bytes::SharedBytes;
use std::alloc::{AllocError, Allocator};

/// As many bytes as a [`SharedBytes`] has in the value itself.
const FEW: usize = 22;

impl<A: Allocator> Memory<A> {
    /// Appends a copy of the `len` bytes from `addr` on, which lie in the memory, to `bytes`.
    ///
    /// # Errors
    /// If memory is refused. `bytes` has then the elements that it had.
    pub fn append_range<B: Allocator>(
        &self,
        addr: u32,
        len: u32,
        bytes: &mut Vec<u8, B>,
    ) -> Result<(), AllocError>
        requires { IsTrue (fits (length self.now.bytes) addr len) }
        ensures ok { OnOk result (bytes.new.items ≡ bytes.old.items ++ bytes_at self.now.bytes addr len) }
        ensures err { OnErr result (bytes.new.items ≡ bytes.old.items) }
    {
        match self.within_page(addr, len) {
            Some(part) => append(bytes, part),
            None => self.append_pages(addr, len, bytes),
        }
    }

    /// The `len` bytes from `addr` on, which lie in the memory, if there are some and one page has them all.
    fn within_page(&self, addr: u32, len: u32) -> Option<&[u8]>
        requires { IsTrue (fits (length self.now.bytes) addr len) }
        ensures { IfSome result (λ part. part.now ≡ bytes_at self.now.bytes addr len) }
    {
        let (at, len) = (addr as usize, len as usize);
        if len != 0 && at % PAGE + len <= PAGE {
            Some(self.window(at, len))
        } else {
            None
        }
    }

    /// Sixteen bytes of which the first are the `len` bytes from `addr` on, which lie in the memory: if these are some and at most 16, and
    /// stand at least 16 before the end of their page.
    // For speed: a value of a known size is copied without a call, and by whoever gets it, so that it is copied once.
    #[inline(always)]
    pub fn read_16(&self, addr: u32, len: u32) -> Option<&[u8; 16]>
        requires { IsTrue (fits (length self.now.bytes) addr len) }
        ensures first { IfSome result (λ few. take len few.now ≡ bytes_at self.now.bytes addr len) }
        ensures most { IfSome result (λ few. len ≤ 16) }
    {
        let at = addr as usize;
        if len != 0 && len <= 16 && at % PAGE <= PAGE - 16 {
            self.window(at, 16).first_chunk::<16>()
        } else {
            None
        }
    }

    /// What `append_range` does with more than one page: it goes page by page.
    #[inline(never)]
    fn append_pages<B: Allocator>(
        &self,
        addr: u32,
        len: u32,
        bytes: &mut Vec<u8, B>,
    ) -> Result<(), AllocError>
        requires { IsTrue (fits (length self.now.bytes) addr len) }
        ensures ok { OnOk result (bytes.new.items ≡ bytes.old.items ++ bytes_at self.now.bytes addr len) }
        ensures err { OnErr result (bytes.new.items ≡ bytes.old.items) }
    {
        let len = len as usize;
        bytes.reserve(len)?;
        let mut done = 0;
        while done < len {
            let at = addr as usize + done;
            let part = (PAGE - at % PAGE).min(len - done);
            bytes.extend_from_slice(self.window(at, part))?;
            done += part;
        }
        Ok(())
    }
}

impl<A: Allocator + Copy> Memory<A> {
    /// A copy of the `len` bytes from `addr` on, which can be shared.
    #[inline]
    pub fn read_range(&self, addr: u32, len: u32) -> Result<SharedBytes<A>, ReadError>
        ensures { IsRead result self.now.bytes addr len }
    {
        if !self.fits(addr, len) {
            return Err(ReadError::Outside);
        }
        match self.read_few(addr, len) {
            Some(bytes) => Ok(bytes),
            None => Ok(self.read_more(addr, len)?),
        }
    }

    /// A copy of the `first_len` bytes from `first` on, and after them of the `second_len` bytes from `second` on, which can be shared.
    /// Both ranges lie in the memory.
    ///
    /// # Errors
    /// If memory is refused.
    #[inline(never)]
    pub fn read_two(
        &self,
        first: u32,
        first_len: u32,
        second: u32,
        second_len: u32,
    ) -> Result<SharedBytes<A>, AllocError>
        requires first { IsTrue (fits (length self.now.bytes) first first_len) }
        requires second { IsTrue (fits (length self.now.bytes) second second_len) }
        ensures { IfOk result (λ v.
            v ≡ bytes_at self.now.bytes first first_len ++ bytes_at self.now.bytes second second_len) }
    {
        if first_len == 0 {
            return self.read(second, second_len);
        }
        let len = first_len as usize + second_len as usize;
        if len <= FEW {
            let front = self.read(first, first_len)?;
            let back = self.read(second, second_len)?;
            return Ok(SharedBytes::few_of_two(front.as_slice(), back.as_slice()));
        }
        let mut bytes = Vec::with_capacity(self.alloc, len)?;
        self.append_range(first, first_len, &mut bytes)?;
        self.append_range(second, second_len, &mut bytes)?;
        SharedBytes::from_vec(bytes)
    }

    /// A copy of the `len` bytes from `addr` on, which lie in the memory.
    fn read(&self, addr: u32, len: u32) -> Result<SharedBytes<A>, AllocError>
        requires { IsTrue (fits (length self.now.bytes) addr len) }
        ensures { IfOk result (λ v. v ≡ bytes_at self.now.bytes addr len) }
    {
        match self.read_few(addr, len) {
            Some(bytes) => Ok(bytes),
            None => self.read_more(addr, len),
        }
    }

    /// The `len` bytes from `addr` on, which lie in the memory, if they are few, and stand so far before the end of their page that as many
    /// as few may be do.
    #[inline(always)]
    fn read_few(&self, addr: u32, len: u32) -> Option<SharedBytes<A>>
        requires { IsTrue (fits (length self.now.bytes) addr len) }
        ensures { IfSome result (λ v. v ≡ bytes_at self.now.bytes addr len) }
    {
        let (at, len) = (addr as usize, len as usize);
        if len != 0 && len <= FEW && at % PAGE <= PAGE - FEW {
            Some(SharedBytes::few_of(self.window(at, FEW), len))
        } else {
            None
        }
    }

    /// What `read_range` does with more bytes than few, or near the end of a page.
    #[inline(never)]
    fn read_more(&self, addr: u32, len: u32) -> Result<SharedBytes<A>, AllocError>
        requires { IsTrue (fits (length self.now.bytes) addr len) }
        ensures { IfOk result (λ v. v ≡ bytes_at self.now.bytes addr len) }
    {
        if let Some(part) = self.within_page(addr, len) {
            return SharedBytes::from_slice(self.alloc, part);
        }
        let mut bytes = Vec::new(self.alloc);
        self.append_pages(addr, len, &mut bytes)?;
        SharedBytes::from_vec(bytes)
    }
}

/// Appends a copy of `part`.
// For speed: what most requests move has one of a few sizes, and bytes whose number is known are copied without a call.
#[inline(always)]
fn append<B: Allocator>(bytes: &mut Vec<u8, B>, part: &[u8]) -> Result<(), AllocError>
    ensures ok { OnOk result (bytes.new.items ≡ bytes.old.items ++ part.now) }
    ensures err { OnErr result (bytes.new.items ≡ bytes.old.items) }
{
    match part.len() {
        4 => bytes.extend_from_slice(&part[..4]),
        8 => bytes.extend_from_slice(&part[..8]),
        16 => bytes.extend_from_slice(&part[..16]),
        _ => bytes.extend_from_slice(part),
    }
}
