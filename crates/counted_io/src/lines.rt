//! A reader that reads a text line by line, only as far as needed.

ghost use Rattle.std.specs.Prelude.{◌≡◌, ◌+◌, ◌<◌, ◌≤◌, ◌⊎◌, ◌∷◌, [], IfNone, IfOk, IfSome, IsOk, OnErr, OnOk, Ok, drop, false, length};
ghost use Rattle.std.specs.Prelude.{slice_index, true, ℕ};
ghost use Rattle.std.specs.Io.KnownBytes.{Consumes, IsAtEnd, Keeps};
ghost use Rattle.counted_io.specs.Counted.{HasRisen};
ghost use Rattle.counted_io.specs.Lines.{GivesLast, GivesLine, GivesNone, HasFeed, IsFirstFeed, IsOver, LacksFeed, LacksFeedWithin};
ghost use Rattle.counted_io.specs.Lines.{PassesLimit, ReadsOn};

use crate::{CHUNK, Counted, ReadError, read_retrying};
use std::alloc::Allocator;
use std::io::Read;
use std::marker::Model;

/// The lines of a text of at most `most` bytes, which is read as they are wanted.
///
/// All that was read is kept, so that the lines may come from a reader in any parts.
#[derive(Drop)]
pub struct LineReader<A: Allocator> {
    text: Vec<u8, A>,
    // How many bytes of the text were given out, with their line feeds.
    given: usize,
    // Where the line that the last call gave begins and ends in the text.
    start: usize,
    end: usize,
    most: usize,
    // Whether the reader came to its end.
    ended: bool,
}

impl<A: Allocator> Model for LineReader<A> {
    ghost use Rattle.std.specs.Prelude.{◌≤◌, length, slice_range};
    ghost use Rattle.counted_io.specs.Lines.{LineReaderState};

    ghost Value = { LineReaderState };

    ghost view = { λ l. record {
      read = l.text.items;
      given = l.given;
      line = slice_range l.text.items l.start l.end;
      most = l.most;
      ended = l.ended;
    } };

    ghost invariant = { λ l. (l.given ≤ length l.text.items) × (length l.text.items ≤ l.most)
        × (l.start ≤ l.end) × (l.end ≤ length l.text.items) };
}

impl<A: Allocator> LineReader<A> {
    /// The lines of a text of which nothing was read.
    pub fn new(alloc: A, most: usize) -> Self
        ensures { result ≡ record { read = []; given = 0; line = []; most = most; ended = false } }
    {
        LineReader {
            text: Vec::new(alloc),
            given: 0,
            start: 0,
            end: 0,
            most,
            ended: false,
        }
    }

    /// Goes on to the next line, and says whether there is one: [`line`](LineReader::line) gives it.
    ///
    /// A line ends by a line feed, or by the end of the text if it has some bytes. Nothing is read if a whole line waits, nothing after the
    /// read that brought its line feed, and nothing once the reader came to its end: there the text ends, even if a terminal would give
    /// more. A text of more than `most` bytes is `TooLong` once the lines that end within them were given. At an error nothing is given;
    /// what was read is kept, but for the one byte after the limit.
    pub fn next_line<R: Read>(&mut self, from: &mut Counted<R>) -> Result<bool, ReadError>
        ensures line { result ≡ Ok true → GivesLine self.old self.new
            ⊎ (GivesLast self.old self.new × IsOver (R.remaining from.new.inner) self.old self.new) }
        ensures end { result ≡ Ok false → GivesNone self.old self.new
            × IsOver (R.remaining from.new.inner) self.old self.new }
        // Whether the text ended is known once and for all.
        ensures over { self.old.ended ≡ true → (self.new.ended ≡ true)
            × (from.new ≡ from.old) × (self.new.read ≡ self.old.read) }
        ensures ends { self.new.ended ≡ true → (self.old.ended ≡ true)
            ⊎ IsAtEnd (R.remaining from.new.inner) }
        ensures bytes { OnOk result (ReadsOn (R.remaining from.old.inner) (R.remaining from.new.inner)
            self.old.read self.new.read) }
        // A line that waits is given without a read.
        ensures waiting { HasFeed (drop self.old.given self.old.read)
            → (result ≡ Ok true) × (from.new ≡ from.old) × (self.new.read ≡ self.old.read) }

        ensures too_long { result ≡ Err ReadError.TooLong
            → PassesLimit (R.remaining from.old.inner) (R.remaining from.new.inner)
            self.old.read self.new.read self.old.most }
        ensures fault { result ≡ Err ReadError.ReadFault
            → HasRisen from.old.failures from.new.failures
            × ReadsOn (R.remaining from.old.inner) (R.remaining from.new.inner)
            self.old.read self.new.read }
        ensures no_memory { result ≡ Err ReadError.NoMemory
            → ReadsOn (R.remaining from.old.inner) (R.remaining from.new.inner)
            self.old.read self.new.read }
        // An error gives nothing, and comes only where no whole line waits.
        ensures err { OnErr result ((self.new.given ≡ self.old.given) × (self.new.line ≡ [])
            × LacksFeed (drop self.new.given self.new.read)) }

        ensures most { self.new.most ≡ self.old.most }
        ensures limit { length self.new.read ≤ self.new.most }
        ensures within { self.new.given ≤ length self.new.read }
        ensures never_falls { from.old.failures ≤ from.new.failures }
    {
        self.start = 0;
        self.end = 0;
        let found = find_line_feed(&mut self.text, self.given, self.most, self.ended, from)?;
        let (end, given, ended) = match found {
            Some(at) => (at, at + 1, self.ended),
            None => (self.text.len(), self.text.len(), true),
        };
        let is_line = self.given < given;
        self.start = self.given;
        self.end = end;
        self.given = given;
        self.ended = ended;
        Ok(is_line)
    }

    /// The line that the last call of [`next_line`](LineReader::next_line) gave, without its line feed; empty if it gave none.
    pub fn line(&self) -> &[u8]
        ensures { result.now ≡ self.now.line }
    {
        &self.text[self.start..self.end]
    }
}

/// Where the first line feed of a text from `given` on stands; none if the text ends before it comes. The text is read on until then,
/// unless it has ended.
fn find_line_feed<A: Allocator, R: Read>(
    text: &mut Vec<u8, A>,
    given: usize,
    most: usize,
    ended: bool,
    from: &mut Counted<R>,
) -> Result<Option<usize>, ReadError>
    requires given { given ≤ length text.old.items }
    requires limit { length text.old.items ≤ most }
    ensures found { IfOk result (λ found. IfSome found (λ at.
        IsFirstFeed text.new.items given at)) }
    ensures absent { IfOk result (λ found. IfNone found
        (LacksFeedWithin text.new.items given (length text.new.items)
        × ((ended ≡ true) ⊎ IsAtEnd (R.remaining from.new.inner)))) }
    ensures over { ended ≡ true → (from.new ≡ from.old) × (text.new.items ≡ text.old.items) }
    ensures bytes { OnOk result (ReadsOn (R.remaining from.old.inner) (R.remaining from.new.inner)
        text.old.items text.new.items) }
    ensures waiting { (at : ℕ) → given ≤ at → at < length text.old.items → slice_index text.old.items at ≡ 10
        → IsOk result × (from.new ≡ from.old) × (text.new.items ≡ text.old.items) }

    ensures too_long { result ≡ Err ReadError.TooLong
        → PassesLimit (R.remaining from.old.inner) (R.remaining from.new.inner)
        text.old.items text.new.items most }
    ensures fault { result ≡ Err ReadError.ReadFault
        → HasRisen from.old.failures from.new.failures
        × ReadsOn (R.remaining from.old.inner) (R.remaining from.new.inner)
        text.old.items text.new.items }
    ensures no_memory { result ≡ Err ReadError.NoMemory
        → ReadsOn (R.remaining from.old.inner) (R.remaining from.new.inner)
        text.old.items text.new.items }

    ensures err { OnErr result (LacksFeedWithin text.new.items given (length text.new.items)) }

    ensures grows { length text.old.items ≤ length text.new.items }
    ensures limit { length text.new.items ≤ most }
    ensures never_falls { from.old.failures ≤ from.new.failures }
{
    let mut searched = given;
    loop {
        if let Some(at) = line_feed_from(text.as_slice(), searched) {
            return Ok(Some(at));
        }
        if ended {
            return Ok(None);
        }
        searched = text.len();
        if !read_more(text, most, from)? {
            return Ok(None);
        }
    }
}

/// Where the first line feed from `start` on stands.
fn line_feed_from(text: &[u8], start: usize) -> Option<usize>
    requires { start ≤ length text.now }
    ensures found { IfSome result (λ at. IsFirstFeed text.now start at) }
    ensures absent { IfNone result (LacksFeedWithin text.now start (length text.now)) }
{
    for i in start..text.len() {
        if text[i] == b'\n' {
            return Some(i);
        }
    }
    None
}

/// One read, which is appended to the text: whether it gave any bytes.
///
/// It asks for no more bytes than the text has room for, and for one if it has none. The memory is asked for first, so that no byte is lost
/// if it is refused.
fn read_more<A: Allocator, R: Read>(
    text: &mut Vec<u8, A>,
    most: usize,
    from: &mut Counted<R>,
) -> Result<bool, ReadError>
    requires { length text.old.items ≤ most }
    ensures some { result ≡ Ok true → length text.old.items < length text.new.items }
    ensures none { result ≡ Ok false
        → (text.new.items ≡ text.old.items) × IsAtEnd (R.remaining from.new.inner) }
    ensures bytes { OnOk result (ReadsOn (R.remaining from.old.inner) (R.remaining from.new.inner)
        text.old.items text.new.items) }

    ensures too_long { result ≡ Err ReadError.TooLong → (length text.old.items ≡ most)
        × ((byte : ℕ) × Consumes (R.remaining from.old.inner) (R.remaining from.new.inner)
        (byte ∷ [])) }
    ensures fault { result ≡ Err ReadError.ReadFault
        → HasRisen from.old.failures from.new.failures
        × Keeps (R.remaining from.old.inner) (R.remaining from.new.inner) }
    ensures no_memory { result ≡ Err ReadError.NoMemory → from.new ≡ from.old }
    ensures err { OnErr result (text.new.items ≡ text.old.items) }

    ensures limit { length text.new.items ≤ most }
    ensures never_falls { from.old.failures ≤ from.new.failures }
{
    let room = most - text.len();
    text.reserve(room.min(CHUNK))?;
    let mut chunk = [0; CHUNK];
    let count = read_retrying(from, &mut chunk[..room.clamp(1, CHUNK)])?;
    if count > room {
        return Err(ReadError::TooLong);
    }
    text.extend_from_slice(&chunk[..count])?;
    Ok(count > 0)
}
