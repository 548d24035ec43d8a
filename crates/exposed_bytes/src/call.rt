//! A call of a superstep, what it reads and writes, and which comes first.

ghost use Rattle.std.specs.Prelude.{◌≡◌, ◌<◌, ◌^◌};
ghost use Rattle.exposed_bytes.specs.Exposed.{changes, delivers, is_in_place, is_open, is_unbuffered, reads_at_call, reads_before};
ghost use Rattle.exposed_bytes.specs.Search.{source_key, target_key};

/// What is called.
#[derive(Clone, Copy, Debug, PartialEq, Eq)]
pub enum Sort {
    Put,
    /// An unbuffered put.
    HpPut,
    Get,
    /// An unbuffered get.
    HpGet,
    /// A message. One with a tag reads twice, so it is two calls with one number.
    Send,
    /// A get of MulticoreBSP that is over when it returns.
    DirectGet,
}

impl Sort {
    /// Whether it may read and write at any time from the call to the end of the superstep.
    pub fn is_unbuffered(self) -> bool
        ensures { result ≡ is_unbuffered self }
    {
        matches!(self, Sort::HpPut | Sort::HpGet)
    }

    /// Whether it has read when it returns.
    fn reads_at_call(self) -> bool
        ensures { result ≡ reads_at_call self }
    {
        matches!(self, Sort::Put | Sort::Send | Sort::DirectGet)
    }

    /// Whether it brings bytes into a memory, and not before all others of its rank.
    fn delivers(self) -> bool
        ensures { result ≡ delivers self }
    {
        matches!(self, Sort::Put | Sort::HpPut | Sort::Get | Sort::HpGet)
    }
}

/// A call of a superstep, and the bytes that it reads and writes.
#[derive(Clone, Copy, Debug, PartialEq, Eq)]
pub struct Call {
    /// The rank that makes it.
    pub caller: u32,
    /// Its number among the calls of that rank. Parts of one call have the same.
    pub number: u32,
    pub sort: Sort,
    /// Where in the code it is made, or whatever else distinguishes calls for the asker.
    pub place: u32,
    /// How many bytes it reads, and writes.
    pub len: u32,
    /// The rank in whose memory it reads, and from which address on.
    pub source_rank: u32,
    pub source: u32,
    /// The rank in whose memory it writes, and from which address on. A message has none.
    pub target_rank: u32,
    pub target: u32,
}

impl Call {
    /// Whether it may change memory. An unbuffered call that brings each byte to where it is does not.
    pub(crate) fn changes(&self) -> bool
        ensures { result ≡ changes self.now }
    {
        self.sort.delivers() && !(self.sort.is_unbuffered() && self.is_in_place())
    }

    /// Whether it brings each byte to where it is.
    fn is_in_place(&self) -> bool
        ensures { result ≡ is_in_place self.now }
    {
        self.source_rank == self.target_rank && self.source == self.target
    }

    /// Whether it has read before another call does anything.
    fn reads_before(&self, other: &Call) -> bool
        ensures { result ≡ reads_before self.now other.now }
    {
        self.sort.reads_at_call() && (self.caller == other.caller && self.number <= other.number)
    }

    /// The place of its first source byte in the memories of all ranks, one after another.
    pub(crate) fn source_key(&self) -> u128
        ensures value { result ≡ source_key self.now }
        ensures most { result < 2 ^ 64 }
    {
        self.source_rank as u128 * (1 << 32) + self.source as u128
    }

    /// The place of its first target byte in the memories of all ranks, one after another.
    pub(crate) fn target_key(&self) -> u128
        ensures value { result ≡ target_key self.now }
        ensures most { result < 2 ^ 64 }
    {
        self.target_rank as u128 * (1 << 32) + self.target as u128
    }
}

/// Whether BSPlib leaves open which comes first: that one call reads a byte, or that another one writes it.
pub(crate) fn is_open(reader: &Call, writer: &Call) -> bool
    ensures { result ≡ is_open reader.now writer.now }
{
    if writer.sort.is_unbuffered() {
        !reader.reads_before(writer)
    } else {
        reader.sort.is_unbuffered()
    }
}
