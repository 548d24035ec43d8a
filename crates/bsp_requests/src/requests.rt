//! The requests and the output of one node in one superstep, and their limits.

ghost use Rattle.std.specs.Prelude.{◌≡◌, ◌≤◌, ◌↔◌, length, map, IsTrue, IsErrOf, IfOk, OnOk, OnErr, option_map, option_copied, slice_get};
ghost use Rattle.bsp_requests.specs.Request.{asked, asks_put, asks_get, asks_send};
ghost use Rattle.bsp_requests.specs.Requests.{IsIssued, no_requests, with_output, total_bytes, max_requests, max_bytes, are_too_many};
ghost use Rattle.bsp_requests.specs.Requests.{is_full_for};
ghost use Rattle.bsp_requests.specs.declared.requests.AddError.TheVariants.{NoMemory};

use crate::request::{Get, Outgoing, Put, Request};
use std::alloc::{AllocError, AllocFailed, Allocator};
use std::marker::Model;

/// The most requests of a node in a superstep: puts, gets and sends together (own limit).
pub const MAX_REQUESTS: usize = 65_536;

/// The most bytes of a node in a superstep: those that puts and gets move, tags and payloads of sends, and output
/// (own limit).
pub const MAX_BYTES: u64 = 16_777_216;

/// The most requests of a node of a large machine in a superstep (own limit).
pub const LARGE_REQUESTS: usize = 1 << 24;

/// The most bytes of a node of a large machine in a superstep (own limit).
pub const LARGE_BYTES: u64 = 1 << 30;

/// Why nothing was added.
#[derive(Clone, Copy, Debug, PartialEq, Eq)]
pub enum AddError {
    /// [`MAX_REQUESTS`] or [`MAX_BYTES`] would be passed, or in a large machine [`LARGE_REQUESTS`] or [`LARGE_BYTES`].
    TooMuch,
    NoMemory,
}

impl From<AllocError> for AddError {
    ghost from_gives = { λ _ e. e ≡ NoMemory };

    fn from(_error: AllocError) -> AddError {
        AddError::NoMemory
    }
}

impl<T: Drop> From<AllocFailed<T>> for AddError {
    ghost from_gives = { λ _ e. e ≡ NoMemory };

    fn from(_error: AllocFailed<T>) -> AddError {
        AddError::NoMemory
    }
}

/// The requests of one node in one superstep, in issue order, and the node's output in it.
#[derive(Drop)]
pub struct Requests<A: Allocator> {
    requests: Vec<Request<A>, A>,
    output: Vec<u8, A>,
    // The bytes of all requests and of the output.
    bytes: u64,
    large: bool,
}

impl<A: Allocator> Model for Requests<A> {
    ghost use Rattle.std.specs.Prelude.{map};
    ghost use Rattle.bsp_requests.specs.Requests.{Requests as RequestsValue, IsCounted};

    ghost Value = { RequestsValue };

    ghost use Rattle.bsp_requests.specs.Request.{asked};

    ghost view = { λ r. record { requests = map asked r.requests.items; output = r.output.items; large = r.large } };

    ghost invariant = { λ r.
        IsCounted (record { requests = map asked r.requests.items; output = r.output.items; large = r.large }) r.bytes };
}

impl<A: Allocator + Copy> Requests<A> {
    /// No requests and no output, with the limits of a large machine or with the others.
    pub fn new(alloc: A, large: bool) -> Self
        ensures { result ≡ no_requests large }
    {
        Requests {
            requests: Vec::new(alloc),
            output: Vec::new(alloc),
            bytes: 0,
            large,
        }
    }

    /// The same requests and the same output. It costs a few words for each request and a copy of the output: the bytes of puts and
    /// messages are shared.
    ///
    /// # Errors
    /// Where memory is refused.
    pub fn try_clone(&self, alloc: A) -> Result<Self, AllocError>
        ensures { IfOk result (λ r. r ≡ self.now) }
    {
        let mut requests = Vec::with_capacity(alloc, self.requests.len())?;
        for request in self.requests.as_slice() {
            requests.push(request.try_clone()?)?;
        }
        Ok(Requests {
            requests,
            output: Vec::from_slice(alloc, &self.output)?,
            bytes: self.bytes,
            large: self.large,
        })
    }
}

impl<A: Allocator> Requests<A> {
    pub fn add_put(&mut self, put: Put<A>) -> Result<(), AddError>
        ensures { IsIssued (asks_put put) self.old self.new result }
    {
        self.add(Request::Put(put))
    }

    pub fn add_get(&mut self, get: Get) -> Result<(), AddError>
        ensures { IsIssued (asks_get get) self.old self.new result }
    {
        self.add(Request::Get(get))
    }

    pub fn add_send(&mut self, message: Outgoing<A>) -> Result<(), AddError>
        ensures { IsIssued (asks_send message) self.old self.new result }
    {
        self.add(Request::Send(message))
    }

    /// Appends to the output. Output counts among the bytes, and not among the requests.
    pub fn add_output(&mut self, bytes: &[u8]) -> Result<(), AddError>
        ensures ok { OnOk result (self.new ≡ with_output self.old bytes.now) }
        ensures too_much { IsErrOf result AddError.TooMuch ↔ IsTrue (are_too_many self.old (length bytes.now)) }
        ensures err { OnErr result (self.new ≡ self.old) }
    {
        let count = bytes.len() as u64;
        if self.are_too_many(count) {
            return Err(AddError::TooMuch);
        }
        self.output.extend_from_slice(bytes)?;
        self.bytes += count;
        Ok(())
    }

    /// How many requests there are, which is the next one's issue number.
    pub fn len(&self) -> usize
        ensures len { result ≡ length self.now.requests }
        ensures limit { result ≤ max_requests self.now.large }
    {
        self.requests.len()
    }

    /// The request with this issue number.
    pub fn at(&self, issue: usize) -> Option<&Request<A>>
        ensures { option_map asked (option_copied result) ≡ slice_get self.now.requests issue }
    {
        self.requests.get(issue)
    }

    /// The requests, in issue order.
    pub fn as_slice(&self) -> &[Request<A>]
        ensures { map asked result.now ≡ self.now.requests }
    {
        self.requests.as_slice()
    }

    /// The bytes of all requests and of the output, as one sum.
    pub fn bytes(&self) -> u64
        ensures sum { result ≡ total_bytes self.now }
        ensures limit { result ≤ max_bytes self.now.large }
    {
        self.bytes
    }

    /// Whether one request more, of `size` bytes, would be too much.
    pub fn is_full_for(&self, size: u64) -> bool
        ensures { result ≡ is_full_for self.now size }
    {
        self.len() >= most_requests(self.large) || self.are_too_many(size)
    }

    /// Whether `count` bytes more would be too many.
    pub fn are_too_many(&self, count: u64) -> bool
        ensures { result ≡ are_too_many self.now count }
    {
        count > most_bytes(self.large) - self.bytes
    }

    /// Whether the limits are those of a large machine.
    pub fn is_large(&self) -> bool
        ensures { result ≡ self.now.large }
    {
        self.large
    }

    pub fn output(&self) -> &[u8]
        ensures { result.now ≡ self.now.output }
    {
        self.output.as_slice()
    }

    /// Leaves no request and no output, for the next superstep. The memory stays with it.
    pub fn clear(&mut self)
        ensures { self.new ≡ no_requests self.old.large }
    {
        self.requests.clear();
        self.output.clear();
        self.bytes = 0;
    }

    // For speed: it stands where it is called, so that a request is written once, into its place in the list.
    #[inline(always)]
    fn add(&mut self, request: Request<A>) -> Result<(), AddError>
        ensures { IsIssued (asked request) self.old self.new result }
    {
        let size = request.size();
        if self.is_full_for(size) {
            return Err(AddError::TooMuch);
        }
        self.requests.push(request)?;
        self.bytes += size;
        Ok(())
    }
}

/// The most requests of a node in a superstep.
fn most_requests(large: bool) -> usize
    ensures { result ≡ max_requests large }
{
    if large { LARGE_REQUESTS } else { MAX_REQUESTS }
}

/// The most bytes of a node in a superstep.
fn most_bytes(large: bool) -> u64
    ensures { result ≡ max_bytes large }
{
    if large { LARGE_BYTES } else { MAX_BYTES }
}
