//! The messages that a node has not read yet.

ghost use Rattle.std.specs.Prelude.{◌≡◌, ◌^◌, ◌<◌, ◌≤◌, ◌++◌, length, take, drop, All, IfOk, OnOk, option_copied, slice_get};
ghost use Rattle.bsp_requests.specs.Inbox.{payload_bytes, IsQueue};
ghost use Rattle.bsp_requests.specs.Message.{IsShort};

use shared_bytes::SharedBytes;
use std::alloc::{AllocError, Allocator};
use std::collections::VecDeque;
use std::marker::Model;

/// A message that was sent in the superstep before. [`Outgoing::arrived`](crate::Outgoing::arrived) makes it.
#[derive(Drop)]
pub struct Message<A: Allocator> {
    /// The rank of the node that sent it.
    pub sender: u16,
    tag_len: u32,
    // The tag, and then the payload.
    bytes: SharedBytes<A>,
}

impl<A: Allocator> Model for Message<A> {
    ghost use Rattle.std.specs.Prelude.{◌≤◌, length, take, drop};
    ghost use Rattle.bsp_requests.specs.Message.{Message as MessageValue};

    ghost Value = { MessageValue };

    ghost view = { λ m. record { sender = m.sender; tag = take m.tag_len m.bytes; payload = drop m.tag_len m.bytes } };

    ghost invariant = { λ m. m.tag_len ≤ length m.bytes };
}

impl<A: Allocator> Message<A> {
    /// A message from `sender`, whose tag is the first `tag_len` of `bytes`, and whose payload is the rest.
    pub(crate) fn new(sender: u16, tag_len: u32, bytes: SharedBytes<A>) -> Self
        requires { tag_len ≤ length bytes }
        ensures { result ≡ record { sender = sender; tag = take tag_len bytes; payload = drop tag_len bytes } }
    {
        Message {
            sender,
            tag_len,
            bytes,
        }
    }

    pub fn tag(&self) -> &[u8]
        ensures { result.now ≡ self.now.tag }
    {
        &self.bytes.as_slice()[..self.tag_len as usize]
    }

    pub fn payload(&self) -> &[u8]
        ensures { result.now ≡ self.now.payload }
    {
        &self.bytes.as_slice()[self.tag_len as usize..]
    }

    /// The same message, which shares its bytes.
    ///
    /// # Errors
    /// If they have too many clones.
    pub fn try_clone(&self) -> Result<Self, AllocError>
        ensures { IfOk result (λ m. m ≡ self.now) }
    {
        Ok(Message {
            sender: self.sender,
            tag_len: self.tag_len,
            bytes: self.bytes.try_clone()?,
        })
    }
}

/// The messages that a node has not read yet, in order (the queue of BSPlib's bulk synchronous messages): fewer than 2^41,
/// each with a tag and a payload of at most 2^30 bytes, and fewer than 2^64 bytes of payload in all.
#[derive(Drop)]
pub struct Inbox<A: Allocator> {
    messages: VecDeque<Message<A>, A>,
    // The bytes of their payloads.
    bytes: u64,
}

impl<A: Allocator> Model for Inbox<A> {
    ghost use Rattle.std.specs.Prelude.{List};
    ghost use Rattle.bsp_requests.specs.Message.{Message as MessageValue};
    ghost use Rattle.bsp_requests.specs.Inbox.{IsCountedQueue};

    ghost Value = { List MessageValue };

    ghost view = { λ i. i.messages.items };

    ghost invariant = { λ i. IsCountedQueue i.messages.items i.bytes };
}

impl<A: Allocator> Inbox<A> {
    /// An inbox of these messages, of which the first is read first. They keep their memory.
    pub fn of(messages: Vec<Message<A>, A>) -> Self
        requires few { length messages.items < 2 ^ 41 }
        requires short { All IsShort messages.items }
        requires light { payload_bytes messages.items < 2 ^ 64 }
        ensures { result ≡ messages.items }
    {
        let bytes = payload_bytes(messages.as_slice()) as u64;
        Inbox {
            messages: VecDeque::from_vec(messages),
            bytes,
        }
    }

    /// The same messages. It costs a few words for each of them, whose bytes are shared.
    ///
    /// # Errors
    /// Where memory is refused.
    pub fn try_clone(&self, alloc: A) -> Result<Self, AllocError>
        ensures { IfOk result (λ i. i ≡ self.now) }
    {
        let (front, back) = self.messages.as_slices();
        let mut messages = Vec::with_capacity(alloc, self.messages.len())?;
        append_clones(front, &mut messages)?;
        append_clones(back, &mut messages)?;
        Ok(Inbox {
            messages: VecDeque::from_vec(messages),
            bytes: self.bytes,
        })
    }

    pub fn count(&self) -> usize
        ensures value { result ≡ length self.now }
        ensures sound { IsQueue self.now }
    {
        self.messages.len()
    }

    /// The bytes of all payloads, without the tags.
    pub fn bytes(&self) -> u64
        ensures { result ≡ payload_bytes self.now }
    {
        self.bytes
    }

    pub fn first(&self) -> Option<&Message<A>>
        ensures { option_copied result ≡ slice_get self.now 0 }
    {
        self.messages.front()
    }

    pub fn at(&self, i: usize) -> Option<&Message<A>>
        ensures { option_copied result ≡ slice_get self.now i }
    {
        self.messages.get(i)
    }

    /// Removes the first message and gives it out.
    pub fn take_first(&mut self) -> Option<Message<A>>
        ensures value { result ≡ slice_get self.old 0 }
        ensures rest { self.new ≡ drop 1 self.old }
    {
        let first = self.messages.pop_front()?;
        self.bytes -= first.payload().len() as u64;
        Some(first)
    }
}

/// The bytes of all payloads, without the tags. No slice has so many that their sum passes 128 bits.
pub fn payload_bytes<A: Allocator>(messages: &[Message<A>]) -> u128
    ensures { result ≡ payload_bytes messages.now }
{
    let mut bytes: u128 = 0;
    for message in messages {
        bytes += message.payload().len() as u128;
    }
    bytes
}

/// Appends the same messages.
fn append_clones<A: Allocator>(
    messages: &[Message<A>],
    clones: &mut Vec<Message<A>, A>,
) -> Result<(), AllocError>
    ensures { OnOk result (clones.new.items ≡ clones.old.items ++ messages.now) }
{
    for message in messages {
        clones.push(message.try_clone()?)?;
    }
    Ok(())
}
