//! Whole inputs, inputs line by line, and whole outputs, over readers and writers whose failures are counted.
//!
//! A [`Counted`] reader or writer passes each call on and counts the calls that fail. A contract sees it as the reader
//! or writer inside and that count.
//!
//! [`read_at_most`] reads an input to its end, with a limit on its bytes, and [`write_whole`] writes an output. A [`LineReader`] gives an
//! input's lines one by one, for callers that answer a line before the next one comes: it reads only if no whole line waits. All of these
//! end on every reader and writer, and callers may rely on this:
//!
//! - If contracts know the reader's bytes, `Ok` of a whole input has read all of them, `TooLong` more of them than the limit, and every
//!   other error no more than the limit.
//! - If they know the writer's bytes, `Ok` has appended all of the output, and a fault has appended only a prefix.
//! - A fault of the reader or the writer is answered only if the count rose in that call.
//! - The lines that were given are those of the bytes that were read, in their order. At an error no byte is lost, except the one that
//!   exceeds the limit of the input. So the next line can be requested again.
//! - `NoMemory` is answered only if a growth was refused, for bytes within the limit. No clause can count refusals, or calls of a reader or
//!   writer: the tests refuse each growth in turn, and look at each call that is passed on. Tests also show that an interrupted call is
//!   tried again, and how often.
//!
//! [`framed_text`] puts a header before a text, with its number of lines, so that a reader knows where the text ends.
#![tactic(auto)]

ghost use Rattle.std.specs.Prelude.{◌≡◌, ◌<◌, ◌≤◌, IfErr, IfOk, OnErr, OnOk, Ok, is_err, length};
ghost use Rattle.std.specs.Io.{ReadsAtMost, WritesAtMost};
ghost use Rattle.std.specs.Io.KnownBytes.{Appends, IsAtEnd, Keeps, ReadConsumes, WriteAppends};
ghost use Rattle.counted_io.specs.Counted.{HasRisen, is_failed_write, next_count};
ghost use Rattle.counted_io.specs.Streams.{IsReadErrorOf, ReadsWhole, stream};
ghost use Rattle.counted_io.specs.Transfers.{AppendsPrefix};

use std::alloc::{AllocError, Allocator};
use std::io;
use std::io::{ErrorKind, Read, Write};
use std::marker::Model;

/// A reader or a writer, and how many of its calls failed.
#[derive(Drop)]
pub struct Counted<T> {
    inner: T,
    failures: u64,
}

impl<T> Model for Counted<T> {
    ghost use Rattle.counted_io.specs.Counted.{CountedState};

    ghost Value = { CountedState T };

    ghost view = { λ c. record { inner = c.inner; failures = c.failures } };
}

impl<T> Counted<T> {
    /// `inner`, with no failure so far.
    pub fn new(inner: T) -> Self
        ensures { result ≡ record { inner = inner; failures = 0 } }
    {
        Counted { inner, failures: 0 }
    }

    /// The calls that failed so far. The count stays at `u64::MAX`.
    pub fn failures(&self) -> u64
        ensures { result ≡ self.now.failures }
    {
        self.failures
    }

    /// The reader or writer inside.
    pub fn inner(&self) -> &T
        ensures { result.now ≡ self.now.inner }
    {
        &self.inner
    }

    /// The reader or writer inside; the count is lost.
    pub fn into_inner(self) -> T
        ensures { result ≡ self.inner }
    {
        self.inner
    }

    /// Counts one more call, which failed or not.
    fn count(&mut self, is_failed: bool)
        ensures { self.new ≡ record self.old { failures = next_count is_failed self.old.failures } }
    {
        if is_failed {
            self.failures = self.failures.saturating_add(1);
        }
    }
}

impl<R: Read> Read for Counted<R> {
    ghost remaining = { λ c. R.remaining c.inner };

    /// One read of the reader inside. Each error counts as a failure, an interruption too.
    fn read(&mut self, buf: &mut [u8]) -> io::Result<usize>
        ensures bound { ReadsAtMost result buf.new }
        ensures bytes { ReadConsumes (R.remaining self.old.inner) (R.remaining self.new.inner)
            result buf.new }
        ensures failures { self.new.failures ≡ next_count (is_err result) self.old.failures }
    {
        let outcome = self.inner.read(buf);
        self.count(outcome.is_err());
        outcome
    }
}

impl<W: Write> Write for Counted<W> {
    ghost contents = { λ c. W.contents c.inner };

    /// One write of the writer inside. Each error counts as a failure, an interruption too, and so does a write that
    /// takes none of some bytes.
    fn write(&mut self, buf: &[u8]) -> io::Result<usize>
        ensures bound { WritesAtMost result buf.now }
        ensures bytes { WriteAppends (W.contents self.old.inner) (W.contents self.new.inner)
            result buf.now }
        ensures failures { self.new.failures
            ≡ next_count (is_failed_write result buf.now) self.old.failures }
    {
        let outcome = self.inner.write(buf);
        let is_failed = match &outcome {
            Ok(taken) => *taken == 0 && !buf.is_empty(),
            Err(_) => true,
        };
        self.count(is_failed);
        outcome
    }

    /// Flushes the writer inside. Each error counts as a failure.
    fn flush(&mut self) -> io::Result<()>
        ensures bytes { Keeps (W.contents self.old.inner) (W.contents self.new.inner) }
        ensures failures { self.new.failures ≡ next_count (is_err result) self.old.failures }
    {
        let flushed = self.inner.flush();
        self.count(flushed.is_err());
        flushed
    }
}

/// Why [`read_at_most`] gave no bytes.
#[derive(Clone, Copy, Debug, PartialEq, Eq)]
pub enum ReadError {
    /// The input has more bytes than the limit.
    TooLong,
    /// The reader failed.
    ReadFault,
    /// A growth was refused.
    NoMemory,
}

impl From<AllocError> for ReadError {
    ghost use Rattle.counted_io.specs.declared.ReadError.TheVariants.{NoMemory};

    ghost from_gives = { λ _ e. e ≡ NoMemory };

    fn from(_refused: AllocError) -> ReadError {
        ReadError::NoMemory
    }
}

/// The writer failed.
#[derive(Clone, Copy, Debug, PartialEq, Eq)]
pub struct WriteFault;

/// How many times in a row a read or a write is tried while a signal interrupts it (own rule).
const TRIES: u32 = 65_536;

/// How many bytes one read asks for.
const CHUNK: usize = 4096;

/// The bytes of `from` up to its end, if there are at most `most`.
///
/// An interrupted read is tried again; 65,536 interruptions in a row are a fault of the reader.
///
/// # Errors
/// What was read is lost: more than `most` bytes at [`ReadError::TooLong`], and no more than these at
/// [`ReadError::ReadFault`] and [`ReadError::NoMemory`].
pub fn read_at_most<A: Allocator + Copy, R: Read>(
    alloc: A,
    from: &mut Counted<R>,
    most: usize,
) -> Result<Vec<u8, A>, ReadError>
    ensures ok { IfOk result (λ input. ReadsWhole (stream R.remaining from.old from.new) input.items most) }
    ensures end { OnOk result (IsAtEnd (R.remaining from.new.inner)) }

    ensures err { IfErr result (λ e. IsReadErrorOf most (stream R.remaining from.old from.new) e) }
    ensures never_falls { from.old.failures ≤ from.new.failures }
{
    let mut input = Vec::new(alloc);
    let mut chunk = [0; CHUNK];
    loop {
        let count = read_retrying(from, &mut chunk)?;
        if count == 0 {
            return Ok(input);
        }
        if count > most - input.len() {
            return Err(ReadError::TooLong);
        }
        input.extend_from_slice(&chunk[..count])?;
    }
}

/// Writes all of `bytes`, and calls nothing if there are none.
///
/// An interrupted write is tried again; 65,536 interruptions in a row are a fault of the writer, and so is a write that
/// takes none of some bytes. A fault leaves the bytes before it written.
pub fn write_whole<W: Write>(to: &mut Counted<W>, bytes: &[u8]) -> Result<(), WriteFault>
    ensures ok { OnOk result
        (Appends (W.contents to.old.inner) (W.contents to.new.inner) bytes.now) }
    ensures none { length bytes.now ≡ 0 → (result ≡ Ok tt) × (to.new ≡ to.old) }

    ensures err { OnErr result
        (AppendsPrefix (W.contents to.old.inner) (W.contents to.new.inner) bytes.now) }
    ensures fault { OnErr result (HasRisen to.old.failures to.new.failures) }
    ensures never_falls { to.old.failures ≤ to.new.failures }
{
    let mut rest = bytes;
    while !rest.is_empty() {
        let count = write_retrying(to, rest)?;
        rest = &rest[count..];
    }
    Ok(())
}

/// Flushes a writer.
///
/// An interrupted call is tried again; 65,536 interruptions in a row are a fault of the writer.
pub fn flush_whole<W: Write>(to: &mut Counted<W>) -> Result<(), WriteFault>
    ensures bytes { Keeps (W.contents to.old.inner) (W.contents to.new.inner) }
    ensures fault { OnErr result (HasRisen to.old.failures to.new.failures) }
    ensures never_falls { to.old.failures ≤ to.new.failures }
{
    for _ in 0..TRIES {
        match to.flush() {
            Ok(()) => return Ok(()),
            Err(e) if e.kind() == ErrorKind::Interrupted => {}
            Err(_) => return Err(WriteFault),
        }
    }
    Err(WriteFault)
}

/// One read, tried again while it is interrupted.
fn read_retrying<R: Read>(from: &mut Counted<R>, chunk: &mut [u8]) -> Result<usize, ReadError>
    ensures bound { ReadsAtMost result chunk.new }
    ensures bytes { ReadConsumes (R.remaining from.old.inner) (R.remaining from.new.inner)
        result chunk.new }
    ensures kind { IfErr result (λ e. e ≡ ReadError.ReadFault) }
    ensures fault { OnErr result (HasRisen from.old.failures from.new.failures) }
    ensures never_falls { from.old.failures ≤ from.new.failures }
{
    for _ in 0..TRIES {
        match from.read(chunk) {
            Ok(count) => return Ok(count),
            Err(e) if e.kind() == ErrorKind::Interrupted => {}
            Err(_) => return Err(ReadError::ReadFault),
        }
    }
    Err(ReadError::ReadFault)
}

/// One write of some of `bytes`, tried again while it is interrupted.
fn write_retrying<W: Write>(to: &mut Counted<W>, bytes: &[u8]) -> Result<usize, WriteFault>
    requires { 0 < length bytes.now }
    ensures bound { WritesAtMost result bytes.now }
    ensures some { IfOk result (λ count. 0 < count) }
    ensures bytes { WriteAppends (W.contents to.old.inner) (W.contents to.new.inner)
        result bytes.now }
    ensures fault { OnErr result (HasRisen to.old.failures to.new.failures) }
    ensures never_falls { to.old.failures ≤ to.new.failures }
{
    for _ in 0..TRIES {
        match to.write(bytes) {
            Ok(0) => return Err(WriteFault),
            Ok(count) => return Ok(count),
            Err(e) if e.kind() == ErrorKind::Interrupted => {}
            Err(_) => return Err(WriteFault),
        }
    }
    Err(WriteFault)
}

mod framed;
mod lines;

pub use framed::framed_text;
pub use lines::LineReader;
