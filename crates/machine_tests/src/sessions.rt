//! The sessions, with each of their requests for memory refused in turn.

use crate::program::{Heap, INPUT, LANGUAGE, SETTINGS, TEXT};
use bsp_console::{debug_dialogue, debug_framed, debug_session};
use bsp_session::{
    Format, Job, LedgerText, SessionError, asm_session, contested_session, counts_session,
    exposed_session, list_session, live_session, profile_session, session,
};
use counted_io::Counted;
use machine_core::{Outcome, Settings};
use std::alloc::{Allocator, Global};
use std::io::{Print, Read};
use std::sync::Wait;
use std::test::Fail;
use std::thread::Threads;

/// One of the sessions.
#[derive(Clone, Copy, PartialEq, Eq)]
pub enum Kind {
    Runs,
    /// A run that is told live.
    Tells,
    Profiles,
    Counts,
    Contests,
    Exposes,
    Lists,
    Saves,
    /// The debugger, over a script.
    Debugs,
    /// The debugger, in a dialogue.
    Talks,
    /// The debugger, in a framed session.
    Frames,
}

use Kind::{Contests, Counts, Debugs, Exposes, Frames, Lists, Profiles, Runs, Saves, Talks, Tells};

/// What a session reads.
#[derive(Drop)]
pub struct Readers<R> {
    pub image: R,
    pub input: R,
    pub lines: R,
}

/// What a session answered and wrote. Its profile, its counts or what it tells of contested bytes stand by themselves.
#[derive(Drop)]
pub struct Done {
    pub answer: Result<(), SessionError>,
    pub out: Vec<u8>,
    pub beside: Vec<u8>,
}

// What a session reads and writes.
#[derive(Drop)]
struct Streams<R> {
    image: Counted<R>,
    input: Counted<R>,
    lines: Counted<R>,
    out: Counted<Vec<u8>>,
    beside: Counted<Vec<u8>>,
}

/// Makes a session, with memory of `alloc`. What it writes is held by `holder`.
pub fn make<T, A, R>(
    rt: &T,
    alloc: A,
    holder: Global,
    kind: Kind,
    format: Format,
    readers: Readers<R>,
) -> Done
where
    T: Threads + Wait + Sync,
    A: Allocator + Copy + Send + Sync,
    R: Read + Drop,
{
    let mut streams = Streams {
        image: Counted::new(readers.image),
        input: Counted::new(readers.input),
        lines: Counted::new(readers.lines),
        out: Counted::new(Vec::new(holder)),
        beside: Counted::new(Vec::new(holder)),
    };
    let answer = answer(rt, alloc, kind, &job_of(kind, format), &mut streams);
    Done {
        answer,
        out: streams.out.into_inner(),
        beside: streams.beside.into_inner(),
    }
}

// What a session is asked to do. Its nodes have units of floating point where what these hold is asked for.
fn job_of(kind: Kind, format: Format) -> Job {
    Job {
        format,
        settings: Settings {
            float: matches!(kind, Debugs | Talks),
            atomic: false,
            ..SETTINGS
        },
        workers: 2,
        slice: 1 << 16,
        report: true,
        ledger: LedgerText::V2,
        g: 2,
        l: 10,
    }
}

fn answer<T, A, R>(
    rt: &T,
    alloc: A,
    kind: Kind,
    job: &Job,
    streams: &mut Streams<R>,
) -> Result<(), SessionError>
where
    T: Threads + Wait + Sync,
    A: Allocator + Copy + Send + Sync,
    R: Read,
{
    match kind {
        Runs | Tells => run(rt, alloc, kind, job, streams),
        Profiles | Counts | Contests | Exposes => run_beside(rt, alloc, kind, job, streams),
        Lists | Saves => convert(alloc, kind, job.format, streams),
        Debugs | Talks | Frames => debug(alloc, kind, job, streams),
    }
}

fn without_outcome(answer: Result<Outcome, SessionError>) -> Result<(), SessionError> {
    match answer {
        Ok(_) => Ok(()),
        Err(error) => Err(error),
    }
}

fn run<T, A, R>(
    rt: &T,
    alloc: A,
    kind: Kind,
    job: &Job,
    streams: &mut Streams<R>,
) -> Result<(), SessionError>
where
    T: Threads + Wait + Sync,
    A: Allocator + Copy + Send + Sync,
    R: Read,
{
    let (image, input, out) = (&mut streams.image, &mut streams.input, &mut streams.out);
    without_outcome(if kind == Tells {
        live_session(rt, alloc, image, input, job, out)
    } else {
        session(rt, alloc, image, input, job, out)
    })
}

// A run that writes something beside its report.
fn run_beside<T, A, R>(
    rt: &T,
    alloc: A,
    kind: Kind,
    job: &Job,
    streams: &mut Streams<R>,
) -> Result<(), SessionError>
where
    T: Threads + Wait + Sync,
    A: Allocator + Copy + Send + Sync,
    R: Read,
{
    let (image, input, out) = (&mut streams.image, &mut streams.input, &mut streams.out);
    let beside = &mut streams.beside;
    without_outcome(match kind {
        Profiles => profile_session(rt, alloc, image, input, job, out, beside),
        Counts => counts_session(alloc, image, input, job, out, beside),
        Exposes => exposed_session(alloc, image, input, job, out, beside),
        _ => contested_session(rt, alloc, image, input, job, out, beside),
    })
}

fn convert<A: Allocator + Copy, R: Read>(
    alloc: A,
    kind: Kind,
    format: Format,
    streams: &mut Streams<R>,
) -> Result<(), SessionError> {
    if kind == Lists {
        list_session(
            alloc,
            format,
            LANGUAGE,
            &mut streams.image,
            &mut streams.out,
        )
    } else {
        asm_session(alloc, LANGUAGE, &mut streams.image, &mut streams.out)
    }
}

fn debug<A: Allocator + Copy, R: Read>(
    alloc: A,
    kind: Kind,
    job: &Job,
    streams: &mut Streams<R>,
) -> Result<(), SessionError> {
    let (image, input, out) = (&mut streams.image, &mut streams.input, &mut streams.out);
    let lines = &mut streams.lines;
    match kind {
        Talks => debug_dialogue(alloc, image, input, job, lines, out),
        Frames => debug_framed(alloc, image, input, job, lines, out),
        _ => debug_session(alloc, image, input, job, lines, out),
    }
}

// Lines of every kind that a script has.
const LINES: &str = "\
break 1 8
break superstep 2
go
clear 1 8
clear 1 8
go
queue 1
regs 1
fregs 1
bytes 1 0x3000 4
step 1 1
step 3 1
phase
turn
costs
output

what
go
quit
step
";

// Lines of a dialogue: those that a person wants, some that are none, and what it tells more of the others.
const TALK_LINES: &str = "\
fregs 1
help over
help
break 1 8
break superstep 1
points
step
step 1
over 0
go
go
regs 1
areas 1
phase
requests 0
words 0 0x2000 5
text 0 0x4c 40
list 0 0 3
what
over
go
quit
";

// What they are answered behind the registers of floating point and what help tells.
const TALK_REPLIES: &str = "\
ok
ok
rank 1 pc 00000008
superstep 1
moved 1
rank 0 pc 00000004 superstep 0 state running
moved 1
moved 1
rank 0 pc 00000008 superstep 0 state running
stopped at rank 1 pc 00000008
stopped at superstep 1
rank 1 pc 00000044 ticks 53 state running
x0/zero=00000000   x1/ra=00000000   x2/sp=00010000   x3/gp=00000000
  x4/tp=00000000   x5/t0=00005ffe   x6/t1=00000000   x7/t2=00000000
  x8/s0=00000000   x9/s1=000000e8  x10/a0=00000000  x11/a1=00000000
 x12/a2=00000000  x13/a3=00000000  x14/a4=00000000  x15/a5=00000000
 x16/a6=00000000  x17/a7=00000004  x18/s2=00000000  x19/s3=00000000
 x20/s4=00000000  x21/s5=00000000  x22/s6=00000000  x23/s7=00000000
 x24/s8=00000000  x25/s9=00000000 x26/s10=00000000 x27/s11=00000000
 x28/t3=00000000  x29/t4=00000000  x30/t5=00000000  x31/t6=00000000
area 0 at 00002000 size 4112
moved 216
request 0 put to rank 0 area 0 offset 4094 bytes 4
request 1 put to rank 1 area 0 offset 4080 bytes 32
request 2 get from rank 0 area 0 offset 4 bytes 4 into 00003ffe
request 3 get from rank 1 area 0 offset 4094 bytes 4 into 00001204
request 4 put to rank 1 area 0 offset 8 bytes 5
request 5 get from rank 1 area 0 offset 4 bytes 5 into 00007ffe
request 6 send to rank 0 bytes 3 tag bytes 4
request 7 send to rank 1 bytes 30 tag bytes 4
00002000: 00000000 00000000 00000000 00000000
00002010: 00000000
\"more than a few bytes of a message\"
00000000: 00300893  addi x17,x0,3
00000004: 00000073  ecall
00000008: 03050513  addi x10,x10,48
refused: BadCommand: there is no such line; help lists the lines
refused: BadCommand: the line is over RANK
ended
";

// Lines of a framed session: those that scripts do not have, and one that has no reply.
const FRAMED_LINES: &str = "\
break superstep 1
go
nodes
where
where 1
where 3
fregs 1
keep
go
output 1
output 3
costs 3
costs 5
kept
back 0
where 1
break 1 0x2c
go 1 5
go 1 5
go 2 5
forget 0
back 0

quit
";

// What they are answered.
const FRAMED_REPLIES: &str = "\
done 1
ok
done 1
stopped at superstep 1
done 1
nodes 2 memory 65536 limit 10000 g 2 l 10 ledger 2
done 2
rank 0 pc 00000044 superstep 1 state running
rank 1 pc 00000044 superstep 1 state running
done 1
rank 1 pc 00000044 superstep 1 state running
refused 1
refused: BadRank
refused 1
refused: NoFloatUnit: nodes have one with --float
done 1
kept 0
done 1
ended
done 1
1
refused 1
refused: BadRange
done 2
superstep 3: w 9 h 0 m 0 last
total 437
refused 1
refused: BadRange
done 1
kept 0 superstep 1, ranks 0 to 1 pc 00000044 state running
done 1
ok
done 1
rank 1 pc 00000044 superstep 1 state running
done 1
ok
done 1
moved 3
done 1
moved 5
refused 1
refused: BadRank
done 1
ok
refused 1
refused: NoSuchKept
done 0
";

// What the nodes of the program write, all of it in superstep 1.
const OUTPUT: &[u8] = b"01";

// What the program writes in a run, and what is told of its costs.
const REPORT: &str = "\
01superstep 0: w 53 h 3 m 1 turned
superstep 1: w 108 h 75 m 1 turned
superstep 2: w 63 h 4 m 0 turned
superstep 3: w 9 h 0 m 0 last
total 437
ended
";

// A session, in which format it reads the program, and how many requests for memory it makes.
struct Row {
    name: &'static str,
    kind: Kind,
    format: Format,
    requests: u64,
}

static ROWS: [Row; 11] = [
    Row {
        name: "asm_session",
        kind: Saves,
        format: Format::Asm {
            extensions: LANGUAGE,
        },
        requests: 526,
    },
    Row {
        name: "list_session",
        kind: Lists,
        format: Format::Elf { large: false },
        requests: 15,
    },
    Row {
        name: "session",
        kind: Runs,
        format: Format::Elf { large: false },
        requests: 102,
    },
    Row {
        name: "live_session",
        kind: Tells,
        format: Format::Elf { large: false },
        requests: 102,
    },
    Row {
        name: "profile_session",
        kind: Profiles,
        format: Format::Raw { large: false },
        requests: 129,
    },
    Row {
        name: "counts_session",
        kind: Counts,
        format: Format::Raw { large: false },
        requests: 110,
    },
    Row {
        name: "contested_session",
        kind: Contests,
        format: Format::Raw { large: false },
        requests: 124,
    },
    Row {
        name: "exposed_session",
        kind: Exposes,
        format: Format::Raw { large: false },
        requests: 131,
    },
    Row {
        name: "debug_session",
        kind: Debugs,
        format: Format::Raw { large: false },
        requests: 153,
    },
    Row {
        name: "debug_dialogue",
        kind: Talks,
        format: Format::Raw { large: false },
        requests: 188,
    },
    Row {
        name: "debug_framed",
        kind: Frames,
        format: Format::Raw { large: false },
        requests: 265,
    },
];

// The program in a format. In its file, which has one segment, the bytes stand behind 84 of headers.
fn program_in(format: Format, file: &[u8]) -> &[u8] {
    match format {
        Format::Asm { .. } => TEXT.as_bytes(),
        Format::Elf { .. } => file,
        Format::Raw { .. } => file.get(84..).unwrap_or(b""),
    }
}

// The lines that a session is asked.
fn lines_of(kind: Kind) -> &'static str {
    match kind {
        Talks => TALK_LINES,
        Frames => FRAMED_LINES,
        _ => LINES,
    }
}

// Makes the session of a row over the program and the lines.
fn make_row<T: Threads + Wait + Sync>(
    rt: &T,
    heap: &Heap,
    holder: Global,
    row: &Row,
    file: &[u8],
) -> Done {
    let readers = Readers {
        image: program_in(row.format, file),
        input: INPUT,
        lines: lines_of(row.kind).as_bytes(),
    };
    make(rt, heap, holder, row.kind, row.format, readers)
}

impl Done {
    // Whether this is what may come of a session that is refused memory, and else comes to `whole`: all of it, nothing, the output of
    // some first supersteps of a run that is told live, or some whole first lines of a listing or of replies.
    fn may_come_before(&self, whole: &Done, kind: Kind) -> bool {
        match self.answer {
            Ok(()) => self.out == whole.out && self.beside == whole.beside,
            Err(SessionError::NoMemory) => {
                self.beside.is_empty() && may_begin(&self.out, &whole.out, kind)
            }
            Err(_) => false,
        }
    }

    // Whether this is all that a session of a row comes to.
    fn is_whole(&self, kind: Kind) -> bool {
        let out = self.out.as_slice();
        self.answer == Ok(())
            && match kind {
                Runs | Tells | Profiles | Counts | Contests | Exposes => out == REPORT.as_bytes(),
                Talks => out.ends_with(TALK_REPLIES.as_bytes()),
                Frames => out == FRAMED_REPLIES.as_bytes(),
                Lists | Saves | Debugs => true,
            }
    }
}

// Whether what was written is nothing, or a part that may stand alone.
fn may_begin(out: &[u8], whole: &[u8], kind: Kind) -> bool {
    match kind {
        Tells => out.is_empty() || out == OUTPUT,
        Lists | Debugs | Talks | Frames => {
            out.is_empty() || whole.starts_with(out) && out.ends_with(b"\n")
        }
        Runs | Profiles | Counts | Contests | Exposes | Saves => out.is_empty(),
    }
}

// Whether that comes of the session of a row which may, where some of its requests for memory are refused, and some are.
fn is_right<T: Threads + Wait + Sync>(
    rt: &T,
    heap: &Heap,
    holder: Global,
    row: &Row,
    file: &[u8],
    whole: &Done,
) -> bool {
    let done = make_row(rt, heap, holder, row, file);
    heap.failures() > 0 && done.may_come_before(whole, row.kind)
}

// The first request for memory of a session which, refused alone or with all from it on, brings what may not come.
fn first_wrong<T: Threads + Wait + Sync>(
    rt: &T,
    heap: &Heap,
    holder: Global,
    row: &Row,
    file: &[u8],
    whole: &Done,
) -> Option<u64> {
    for nth in 1..=row.requests {
        heap.fail_nth(nth);
        let is_right_alone = is_right(rt, heap, holder, row, file, whole);
        heap.fail_from_nth(nth);
        if !is_right_alone || !is_right(rt, heap, holder, row, file, whole) {
            return Some(nth);
        }
    }
    None
}

// Whether the session of a row comes to its end by as many requests as it says, and to what may come where one of them is refused. It is
// told where it does not.
fn is_right_throughout<T: Threads + Wait + Sync + Print>(
    rt: &T,
    heap: &Heap,
    holder: Global,
    row: &Row,
    file: &[u8],
) -> Result<bool, Fail> {
    heap.fail_nth(0);
    let whole = make_row(rt, heap, holder, row, file);
    let requests = heap.requests();
    let wrong = first_wrong(rt, heap, holder, row, file, &whole);
    let is_right = whole.is_whole(row.kind) && requests == row.requests && wrong.is_none();
    println!(rt;
        "{requests:4} refused: {}, the first wrong: {wrong:?}",
        row.name
    )?;
    Ok(is_right)
}

#[test]
fn each_session_may_be_refused_memory(rt: HostRuntime) -> Result<(), Fail> {
    let heap = Heap::new(rt.alloc());
    let saved = make_row(&rt, &heap, rt.alloc(), &ROWS[0], b"");
    // Each row is tried and told, whatever the rows before it came to.
    let mut are_right = true;
    for row in &ROWS {
        are_right &= is_right_throughout(&rt, &heap, rt.alloc(), row, &saved.out)?;
    }
    assert!(rt; are_right);
    Ok(())
}
