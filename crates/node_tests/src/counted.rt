//! Tests of `counted_io`.

use counted_io::{Counted, LineReader, ReadError, read_at_most, write_whole};
use failing_allocator::FailingAllocator;
use std::alloc::{Allocator, Global};
use std::io;
use std::io::{ErrorKind, Read, Write};

// Fails `faults` times, and then gives `rest`.
#[derive(Clone, Copy, Drop)]
struct Source {
    faults: u32,
    kind: ErrorKind,
    rest: &'static [u8],
}

impl Read for Source {
    fn read(&mut self, buf: &mut [u8]) -> io::Result<usize> {
        if self.faults > 0 {
            self.faults -= 1;
            return Err(io::Error::from(self.kind));
        }
        self.rest.read(buf)
    }
}

// Fails `faults` times, by an error or by an answer of 0, and then takes all: the digits of `taken`, to the base of 256.
#[derive(Clone, Copy, Drop)]
struct Sink {
    faults: u32,
    kind: Option<ErrorKind>,
    taken: u64,
}

impl Write for Sink {
    fn write(&mut self, buf: &[u8]) -> io::Result<usize> {
        if self.faults == 0 {
            for byte in buf {
                self.taken = self.taken.wrapping_mul(256).wrapping_add(u64::from(*byte));
            }
            return Ok(buf.len());
        }
        self.faults -= 1;
        match self.kind {
            Some(kind) => Err(io::Error::from(kind)),
            None => Ok(0),
        }
    }

    fn flush(&mut self) -> io::Result<()> {
        Err(io::Error::from(ErrorKind::Other))
    }
}

// Whether a read of two bytes whose first calls fail is a fault or not, as said, and each failure counts.
fn reads(alloc: Global, faults: u32, kind: ErrorKind, is_fault: bool) -> bool {
    let rest = b"01".as_slice();
    let mut from = Counted::new(Source { faults, kind, rest });
    let is_right = match read_at_most(alloc, &mut from, 2) {
        Ok(bytes) => !is_fault && bytes.as_slice() == rest,
        Err(error) => is_fault && error == ReadError::ReadFault,
    };
    is_right && from.failures() == u64::from(faults)
}

#[test]
fn only_interrupted_reads_are_tried_again_65_536_times(rt: HostRuntime) {
    for (kind, faults, is_fault) in [
        (ErrorKind::Interrupted, 65_535, false),
        (ErrorKind::Interrupted, 65_536, true),
        (ErrorKind::Other, 1, true),
    ] {
        assert!(rt;
            reads(rt.alloc(), faults, kind, is_fault),
            "{faults} faults"
        );
    }
}

// Whether a write of two bytes whose first calls fail is a fault or not, as said, and each failure counts, that of a flush too.
fn writes(faults: u32, kind: Option<ErrorKind>, is_fault: bool) -> bool {
    let mut to = Counted::new(Sink {
        faults,
        kind,
        taken: 0,
    });
    let taken = if is_fault { 0 } else { 0x3031 };
    write_whole(&mut to, b"01").is_err() == is_fault
        && to.failures() == u64::from(faults)
        && to.flush().is_err()
        && to.failures() == u64::from(faults) + 1
        && to.inner().taken == taken
}

#[test]
fn only_interrupted_writes_are_tried_again_65_536_times(rt: HostRuntime) {
    for (kind, faults, is_fault) in [
        (Some(ErrorKind::Interrupted), 65_535, false),
        (Some(ErrorKind::Interrupted), 65_536, true),
        (Some(ErrorKind::Other), 1, true),
        (None, 1, true),
    ] {
        assert!(rt; writes(faults, kind, is_fault), "{faults} faults");
    }
}

// Whether the line is read, also where a growth is refused once, and how often one was.
fn reads_line<A: Allocator + Copy>(alloc: A, text: &[u8; 9000]) -> (bool, u32) {
    let mut from = Counted::new(text.as_slice());
    let mut lines = LineReader::new(alloc, 9000);
    let mut is_line = lines.next_line(&mut from);
    let mut refused = 0;
    if is_line == Err(ReadError::NoMemory) {
        refused = 1;
        is_line = lines.next_line(&mut from);
    }
    (
        is_line == Ok(true) && lines.line() == &text[..8999],
        refused,
    )
}

#[test]
fn a_refused_growth_loses_no_byte_of_a_line(rt: HostRuntime) {
    let heap = FailingAllocator::new(rt.alloc());
    let mut text = [7; 9000];
    text[8999] = b'\n';
    let mut failures = 0u32;
    for request in 1..8 {
        heap.fail_nth(request);
        let (is_read, refused) = reads_line(&heap, &text);
        assert!(rt; is_read);
        failures = failures.saturating_add(refused);
    }
    assert!(rt; failures > 0 && failures < 7);
}
