//! Puts, gets and sends, as they were requested.

ghost use Rattle.std.specs.Prelude.{◌≡◌, ◌+◌, ◌≤◌, length, take, drop, IfOk};

use crate::inbox::Message;
use shared_bytes::SharedBytes;
use std::alloc::{AllocError, Allocator};
use std::marker::Model;

/// Bytes for a registered area of another node, copied when the put was issued (BSPlib's `bsp_put`).
#[derive(Drop)]
pub struct Put<A: Allocator> {
    /// The rank of the node that the bytes go to.
    pub target: u16,
    /// The place in the list of registrations of the area that they go to.
    pub slot: u16,
    /// Where in the area they begin, in bytes.
    pub offset: u32,
    pub bytes: SharedBytes<A>,
}

impl<A: Allocator> Model for Put<A> {
    ghost use Rattle.bsp_requests.specs.Put.{Put as PutValue};

    ghost Value = { PutValue };

    ghost view = { λ p. record { target = p.target; slot = p.slot; offset = p.offset; bytes = p.bytes } };
}

impl<A: Allocator> Put<A> {
    /// The same put, which shares its bytes.
    fn try_clone(&self) -> Result<Self, AllocError>
        ensures { IfOk result (λ p. p ≡ self.now) }
    {
        Ok(Put {
            target: self.target,
            slot: self.slot,
            offset: self.offset,
            bytes: self.bytes.try_clone()?,
        })
    }
}

/// A request for bytes of a registered area of another node (BSPlib's `bsp_get`).
#[derive(Clone, Copy, Debug, PartialEq, Eq)]
pub struct Get {
    /// The rank of the node that the bytes come from.
    pub target: u16,
    /// The place in the list of registrations of the area that they come from.
    pub slot: u16,
    /// Where in the area they begin, in bytes.
    pub offset: u32,
    /// The address in the caller's memory that they go to.
    pub dst: u32,
    /// How many bytes.
    pub len: u32,
}

/// A message on its way to another node (BSPlib's `bsp_send`).
// For memory: its tag and its payload are one value, since each request takes as much room as the largest kind.
#[derive(Drop)]
pub struct Outgoing<A: Allocator> {
    /// The rank of the node that it goes to.
    pub target: u16,
    tag_len: u32,
    // The tag, and then the payload.
    bytes: SharedBytes<A>,
}

impl<A: Allocator> Model for Outgoing<A> {
    ghost use Rattle.std.specs.Prelude.{◌≤◌, length, take, drop};
    ghost use Rattle.bsp_requests.specs.Outgoing.{Outgoing as OutgoingValue};

    ghost Value = { OutgoingValue };

    ghost view = { λ s. record { target = s.target; tag = take s.tag_len s.bytes; payload = drop s.tag_len s.bytes } };

    ghost invariant = { λ s. s.tag_len ≤ length s.bytes };
}

impl<A: Allocator> Outgoing<A> {
    /// A message to `target`, whose tag is the first `tag_len` of `bytes`, and whose payload is the rest.
    pub fn new(target: u16, tag_len: u32, bytes: SharedBytes<A>) -> Self
        requires { tag_len ≤ length bytes }
        ensures { result ≡ record { target = target; tag = take tag_len bytes; payload = drop tag_len bytes } }
    {
        Outgoing {
            target,
            tag_len,
            bytes,
        }
    }

    pub fn tag(&self) -> &[u8]
        ensures { result.now ≡ self.now.tag }
    {
        &self.bytes.as_slice()[..self.tag_len as usize]
    }

    pub fn payload(&self) -> &[u8]
        ensures { result.now ≡ self.now.payload }
    {
        &self.bytes.as_slice()[self.tag_len as usize..]
    }

    /// The bytes of its tag and its payload together.
    pub fn size(&self) -> usize
        ensures { result ≡ length self.now.tag + length self.now.payload }
    {
        self.bytes.len()
    }

    /// The same message as it arrives, from the node of rank `sender`. It shares its bytes.
    ///
    /// # Errors
    /// If they have too many clones.
    pub fn arrived(&self, sender: u16) -> Result<Message<A>, AllocError>
        ensures { IfOk result (λ m. m ≡ record { sender = sender; tag = self.now.tag; payload = self.now.payload }) }
    {
        let bytes = self.bytes.try_clone()?;
        Ok(Message::new(sender, self.tag_len, bytes))
    }

    /// The same message, which shares its bytes.
    fn try_clone(&self) -> Result<Self, AllocError>
        ensures { IfOk result (λ s. s ≡ self.now) }
    {
        Ok(Outgoing {
            target: self.target,
            tag_len: self.tag_len,
            bytes: self.bytes.try_clone()?,
        })
    }
}

/// What a node asks of the exchange at the end of the superstep.
#[derive(Drop)]
pub enum Request<A: Allocator> {
    Put(Put<A>),
    Get(Get),
    Send(Outgoing<A>),
}

impl<A: Allocator> Request<A> {
    ghost use Rattle.bsp_requests.specs.Request.{asked, size_of};

    /// The same request, which shares its bytes.
    pub(crate) fn try_clone(&self) -> Result<Self, AllocError>
        ensures { IfOk result (λ r. asked r ≡ asked self.now) }
    {
        let request = match self {
            Request::Put(put) => Request::Put(put.try_clone()?),
            Request::Get(get) => Request::Get(*get),
            Request::Send(message) => Request::Send(message.try_clone()?),
        };
        Ok(request)
    }

    /// The bytes that it counts.
    pub(crate) fn size(&self) -> u64
        ensures { result ≡ size_of (asked self.now) }
    {
        match self {
            Request::Put(put) => put.bytes.len() as u64,
            Request::Get(get) => u64::from(get.len),
            Request::Send(message) => message.size() as u64,
        }
    }
}
