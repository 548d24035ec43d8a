//! The language of a debugger: what its lines ask for, and the texts that answer them.
//!
//! A line is words, separated by spaces: `break 1 0x10`, `step 0 100`, `regs 2`. [`parse_line`] says what it asks for, as a [`Line`].
//! [`reply_text`] gives the lines of a [`Reply`](bsp_debug::Reply). A [`Verdict`] displays as the line of an answer without a reply.
//!
//! There are three such languages, each with the lines of the one before it and some more: that of scripts, that of dialogues
//! ([`parse_dialogue_line`]) and that of framed sessions ([`parse_framed_line`]). [`add_place`], [`add_kept`], [`point_lines`],
//! [`shown_text`], [`area_lines`], [`request_lines`], [`help_text`], [`setup_line`] and [`costs_from`] answer the lines that scripts do not
//! have. [`named_registers`] and [`named_float_registers`] show a node in a dialogue.
//!
//! Callers may rely on this:
//!
//! - No line takes memory to parse, and each is what the definitions make of its words: [`Line::Unknown`] if no line has them.
//! - If no line has the words, a dialogue knows whether some lines have the first word. Its refusal then shows how these lines are spelled.
//! - Only spaces separate words, any number of them, and spaces at the ends do not matter. Any other byte is part of a word.
//! - Numbers are those of `numerals`. A line is unknown if a number in it is too large: ranks, addresses and lengths have 32 bits, counts
//!   and numbers of supersteps 64.
//! - The text of a reply is that of the definitions, with a line feed at the end of each line. It can fail only for lack of memory.
//!
//! The language is this project's own.
#![tactic(auto)]

mod character;
mod floats;
mod form;
mod framed;
mod help;
mod kept;
mod line;
mod named;
mod octets;
mod reply;
mod shown;
mod topic;
mod verdict;
mod word;

pub use floats::named_float_registers;
pub use form::Form;
pub use framed::{add_place, costs_from, setup_line};
pub use help::{Audience, add_help, help_text};
pub use kept::add_kept;
pub use line::{Line, parse_dialogue_line, parse_framed_line, parse_line};
pub use named::named_registers;
pub use reply::reply_text;
pub use shown::{area_lines, point_lines, request_lines, shown_len, shown_text};
pub use topic::Topic;
pub use verdict::Verdict;
