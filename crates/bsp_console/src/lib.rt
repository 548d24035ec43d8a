//! Sessions with the debugger: each reads a program, and answers the lines of a script one by one.
//!
//! Each session reads an image and an input to their ends, makes a machine of them, puts it into a [`Debugger`](bsp_debug::Debugger), and
//! answers lines with it, each before the next one is looked at. One definition says how lines are answered. The sessions differ in which
//! lines there are, when they are read, and how the replies are written:
//!
//! - [`debug_session`] reads its whole script before it makes anything of the image, as it reads the other files.
//! - [`debug_dialogue`] reads a line when it needs one, and flushes each reply before that. So a person can type the lines at a terminal,
//!   or a program can send them and wait for the replies. A dialogue has some lines more than a script.
//! - [`debug_framed`] is such a dialogue with a program. A header before each reply shows where the reply ends, and there are some lines
//!   more than in a dialogue.
//!
//! All are generic over their readers, their writer and their allocator; the language of the lines is that of the crate `debug_lines`.
//!
//! Callers may rely on this, as far as contracts know the bytes of the readers and of the writer:
//!
//! - At `Ok` the replies to all lines up to the first `quit` were written, one after another, and nothing else; each is that of the
//!   definitions for the debugger that the lines before it left.
//! - An error is that of the first stage that failed, in the order in which the session works. Later stages did not touch anything.
//! - If an error comes after some lines were answered, the replies to these lines were written whole. A fault of the writer may also leave
//!   the first bytes of one more reply.
//! - A fault of a reader or of the writer is answered only if one of its calls failed in this session.
//!
//! No contract says, but tests show: a dialogue and a framed session write and flush a reply before they read the next line, and they
//! report a lack of memory only if a request for memory was refused.
#![tactic(auto)]

mod answer;
mod dialogue;
mod manner;
mod place;
mod script;
mod start;
mod telling;

pub use dialogue::{debug_dialogue, debug_framed};
pub use script::debug_session;
