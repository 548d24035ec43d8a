//! Readers that fail in the middle of their input.

use crate::program::{INPUT, LANGUAGE};
use crate::sessions::{Done, Kind, Readers, make};
use bsp_session::{Format, SessionError};
use std::alloc::Global;
use std::io;
use std::io::{ErrorKind, Read};
use std::sync::Wait;
use std::thread::Threads;

// Gives its text in reads of at most `step` bytes; after the text it fails, or it has ended.
#[derive(Clone, Copy, Drop)]
struct Source {
    text: &'static [u8],
    step: usize,
    fails: bool,
}

impl Read for Source {
    fn read(&mut self, buf: &mut [u8]) -> io::Result<usize> {
        if self.text.is_empty() && self.fails {
            return Err(io::Error::from(ErrorKind::Other));
        }
        let count = self.step.min(buf.len()).min(self.text.len());
        let text = self.text;
        buf[..count].copy_from_slice(&text[..count]);
        self.text = &text[count..];
        Ok(count)
    }
}

type Sources = Readers<Source>;

// What a whole session reads: a program that ends at once, its input, and a script.
const WHOLE: Sources = Readers {
    image: Source {
        text: b"li a7, 1\necall\n",
        step: 8,
        fails: false,
    },
    input: Source {
        text: INPUT,
        step: 8,
        fails: false,
    },
    lines: Source {
        text: b"phase\nturn\n",
        step: 8,
        fails: false,
    },
};

// Some first bytes of what a source gives, after which it fails.
fn cut(source: Source, given: usize) -> Source {
    Source {
        text: source.text.get(..given).unwrap_or(b""),
        fails: true,
        ..source
    }
}

// What comes of a session over sources.
fn done<T: Threads + Wait + Sync>(rt: &T, alloc: Global, kind: Kind, sources: Sources) -> Done {
    let format = Format::Asm {
        extensions: LANGUAGE,
    };
    make(rt, alloc, alloc, kind, format, sources)
}

// Whether a session is a read fault that writes nothing.
fn is_read_fault<T: Threads + Wait + Sync>(
    rt: &T,
    alloc: Global,
    kind: Kind,
    sources: Sources,
) -> bool {
    done(rt, alloc, kind, sources).is(Err(SessionError::ReadFault), b"")
}

impl Done {
    // Whether this is the answer, and what was written.
    fn is(&self, answer: Result<(), SessionError>, out: &[u8]) -> bool {
        self.answer == answer && self.out.as_slice() == out && self.beside.is_empty()
    }
}

// Whether a session is a read fault wherever its image fails, and wherever its input does, if it reads one.
fn fails_with_each_reader<T: Threads + Wait + Sync>(
    rt: &T,
    alloc: Global,
    kind: Kind,
    reads_input: bool,
) -> bool {
    for given in 0..=WHOLE.image.text.len() {
        let image = cut(WHOLE.image, given);
        if !is_read_fault(rt, alloc, kind, Readers { image, ..WHOLE }) {
            return false;
        }
    }
    for given in 0..=INPUT.len() {
        let input = cut(WHOLE.input, given);
        if is_read_fault(rt, alloc, kind, Readers { input, ..WHOLE }) != reads_input {
            return false;
        }
    }
    done(rt, alloc, kind, WHOLE).answer == Ok(())
}

#[test]
fn one_reader_that_fails_is_a_read_fault(rt: HostRuntime) {
    for (kind, reads_input) in [
        (Kind::Runs, true),
        (Kind::Tells, true),
        (Kind::Profiles, true),
        (Kind::Counts, true),
        (Kind::Contests, true),
        (Kind::Exposes, true),
        (Kind::Lists, false),
        (Kind::Saves, false),
        (Kind::Debugs, true),
        (Kind::Talks, true),
        (Kind::Frames, true),
    ] {
        assert!(rt; fails_with_each_reader(&rt, rt.alloc(), kind, reads_input));
    }
}

// A session over lines after which their reader fails, and what comes of it.
struct Row {
    kind: Kind,
    text: &'static [u8],
    answer: Result<(), SessionError>,
    out: &'static [u8],
}

// A dialogue answers the lines that came whole, and reads nothing behind `quit`.
static ROWS: [Row; 5] = [
    Row {
        kind: Kind::Debugs,
        text: b"phase\nquit\n",
        answer: Err(SessionError::ReadFault),
        out: b"",
    },
    Row {
        kind: Kind::Talks,
        text: b"phase\nquit\n",
        answer: Ok(()),
        out: b"moved 4\n",
    },
    Row {
        kind: Kind::Debugs,
        text: b"phase\nturn",
        answer: Err(SessionError::ReadFault),
        out: b"",
    },
    Row {
        kind: Kind::Talks,
        text: b"phase\nturn",
        answer: Err(SessionError::ReadFault),
        out: b"moved 4\n",
    },
    Row {
        kind: Kind::Talks,
        text: b"phase\nturn\n",
        answer: Err(SessionError::ReadFault),
        out: b"moved 4\nended\n",
    },
];

// Whether that comes of a row, in reads of so many bytes.
fn is_answered<T: Threads + Wait + Sync>(rt: &T, alloc: Global, row: &Row, step: usize) -> bool {
    let lines = Source {
        text: row.text,
        step,
        fails: true,
    };
    done(rt, alloc, row.kind, Readers { lines, ..WHOLE }).is(row.answer, row.out)
}

#[test]
fn a_script_is_read_before_its_first_reply_and_a_dialogue_as_it_comes(rt: HostRuntime) {
    for row in &ROWS {
        for step in [1, 3, 4096] {
            assert!(rt;
                is_answered(&rt, rt.alloc(), row, step),
                "in parts of {step}"
            );
        }
    }
}
