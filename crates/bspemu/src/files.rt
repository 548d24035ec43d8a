//! The files that a command line names, as readers.

ghost use Rattle.std.specs.Prelude.{◌≡◌, IfOk, IfErr, IsErr, IsOk, IsTrue, None, codes};
ghost use Rattle.std.specs.Io.{ReadsAtMost};
ghost use Rattle.std.specs.Io.KnownBytes.{ReadConsumes};
ghost use Rattle.bspemu.specs.Source.{bytes_left, image_place, file, input_place, lines_place, place_of, standard_input};

use std::fs::OpenFile;
use std::io::{ErrorKind, IsTerminal, Read};
use std::os::unix::fs::MetadataExt;
use std::rt::Files;
use std::{fs, io};

/// A source of bytes.
#[derive(Drop)]
pub enum Source<F, I> {
    /// An opened file.
    File(F),
    /// Standard input.
    Standard(I),
    /// Standard input that was closed before the program started. Its reads fail.
    Closed,
    /// No bytes.
    Empty,
}

impl<F: Read, I: Read> Read for Source<F, I> {
    ghost remaining = { bytes_left F.remaining I.remaining };

    fn read(&mut self, buf: &mut [u8]) -> io::Result<usize>
        ensures bound { ReadsAtMost result buf.new }
        ensures bytes { ReadConsumes (bytes_left F.remaining I.remaining self.old)
            (bytes_left F.remaining I.remaining self.new) result buf.new }
        ensures closed { self.old ≡ Source.Closed → IsErr result }
        ensures empty { self.old ≡ Source.Empty → result ≡ Ok 0 }
    {
        match self {
            Source::File(file) => file.read(buf),
            Source::Standard(input) => input.read(buf),
            Source::Closed => Err(io::Error::from(ErrorKind::BrokenPipe)),
            Source::Empty => Ok(0),
        }
    }
}

impl<F, I: IsTerminal> Source<F, I> {
    /// Whether the bytes come from standard input, and that is a terminal.
    pub fn is_terminal(&self) -> bool
        ensures { IsTrue result → place_of self.now ≡ standard_input }
    {
        match self {
            Source::Standard(input) => input.is_terminal(),
            Source::File(_) | Source::Closed | Source::Empty => false,
        }
    }
}

/// The file at this path can't be opened.
#[derive(Clone, Copy)]
pub struct CannotOpen<'a>(pub &'a str);

/// The image at `path`; `-` is standard input, and can always be opened.
#[inline(never)]
pub fn open_image<'a, R: Files + Input>(
    rt: &R,
    path: &'a str,
) -> Result<Source<R::File, R::Reader>, CannotOpen<'a>>
    ensures ok { IfOk result (λ source. place_of source ≡ image_place path.entry.now) }
    ensures err { IfErr result (λ e. e.0 ≡ path.entry) }
    ensures standard { path.entry.now ≡ codes "-" → IsOk result }
{
    if path == "-" {
        Ok(open_standard(rt))
    } else {
        Ok(Source::File(open_file(rt, path)?))
    }
}

/// The input at `path`, which is a file's even if it is `-`; with no path the input is empty.
#[inline(never)]
pub fn open_input<'a, R: Files + Input>(
    rt: &R,
    path: Option<&'a str>,
) -> Result<Source<R::File, R::Reader>, CannotOpen<'a>>
    ensures ok { IfOk result (λ source. place_of source ≡ input_place path.entry) }
    ensures err { IfErr result (λ e. path.entry ≡ Some e.0) }
    ensures empty { path.entry ≡ None → IsOk result }
{
    match path {
        Some(path) => Ok(Source::File(open_file(rt, path)?)),
        None => Ok(Source::Empty),
    }
}

/// The lines that a debugger answers, if the image is at `path`: standard input, or nothing if that is the image.
#[inline(never)]
pub fn open_lines<R: Files + Input>(rt: &R, path: &str) -> Source<R::File, R::Reader>
    ensures { place_of result ≡ lines_place path.now }
{
    match path {
        "-" => Source::Empty,
        _ => open_standard(rt),
    }
}

/// Standard input. If it is closed, the next file to be opened would stand in its place and be read for it: a read of no bytes tells.
fn open_standard<R: Files + Input>(rt: &R) -> Source<R::File, R::Reader>
    ensures { place_of result ≡ standard_input }
{
    let mut input = rt.reader();
    match input.read(&mut [0; 0]) {
        Ok(_) => Source::Standard(input),
        Err(_) => Source::Closed,
    }
}

/// The file at `path`, to be read.
pub fn open_file<'a, R: Files>(rt: &R, path: &'a str) -> Result<R::File, CannotOpen<'a>>
    ensures { IfErr result (λ e. e.0 ≡ path.entry) }
{
    fs::open(rt, path).map_err(|_| CannotOpen(path))
}

/// The file at `path`, to be written: it is created if there is none, and otherwise emptied. It may not be `source`, which is still to be
/// read, under whatever name.
pub fn create<'a, R: Files>(
    rt: &R,
    path: &'a str,
    source: &R::File,
) -> Result<R::File, CannotOpen<'a>>
    ensures { IfErr result (λ e. e.0 ≡ path.entry) }
{
    if is_at(rt, path, source) {
        return Err(CannotOpen(path));
    }
    fs::create(rt, path).map_err(|_| CannotOpen(path))
}

/// The file at `path` for what a run writes beside its output: it is created if there is none, and otherwise emptied. It may be neither the
/// image nor the input, which are still to be read, under whatever name.
#[inline(never)]
pub fn create_beside<'a, R: Files, I>(
    rt: &R,
    path: &'a str,
    image: &Source<R::File, I>,
    input: &Source<R::File, I>,
) -> Result<R::File, CannotOpen<'a>>
    ensures { IfErr result (λ e. e.0 ≡ path.entry) }
{
    if is_source(rt, path, image) || is_source(rt, path, input) {
        return Err(CannotOpen(path));
    }
    fs::create(rt, path).map_err(|_| CannotOpen(path))
}

/// Whether `path` leads to the file of a source.
fn is_source<R: Files, I>(rt: &R, path: &str, source: &Source<R::File, I>) -> bool {
    match source {
        Source::File(file) => is_at(rt, path, file),
        Source::Standard(_) | Source::Closed | Source::Empty => false,
    }
}

/// Whether `path` leads to this file. Links and other spellings of a path lead to one file, which its device and its number
/// there name.
fn is_at<R: Files>(rt: &R, path: &str, file: &R::File) -> bool {
    match (fs::metadata(rt, path), file.metadata()) {
        (Ok(there), Ok(here)) => there.dev() == here.dev() && there.ino() == here.ino(),
        _ => false,
    }
}
