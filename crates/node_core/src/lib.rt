//! A node of the machine: a hart of RV32IMC with a memory of its own, which makes environment calls by ECALL. It may have a unit of
//! floating point, and then has the instructions of F and D. It may have the instructions of A, and then a reservation.
//!
//! The model of a [`Node`] is one record, a `NodeState`, with two notes beside it: whether room is made for the turn of its
//! registrations, and which pages of its memory are private and not shared with other nodes. The record has the hart (rank, number of
//! nodes, registers, pc, memory, place in the input, and what the node communicates: registrations, requests with the output of this
//! superstep, queue of messages, sizes of tags), the state, the ticks and their limit. [`Node::step`] is `local_step` of that record, and
//! [`Node::run`] is `local_steps`, so many steps one after another. The input is the same text at each step, and no step looks at another
//! node or at the notes.
//!
//! What callers may rely on:
//!
//! - Each step of a running node is one tick, even if it ends in a fault. It executes the instruction at pc, or ends in the first fault of
//!   this order: `Misaligned` if pc is odd; `FetchOutside` if the two bytes at pc do not lie in the memory, or the four if the low bits of
//!   these two are 11; `IllegalInstruction` if no instruction has that code, or one of floating point and the node has no unit, or one of A
//!   and the node does not have A; and then the instruction's own. Then pc is past the instruction's 2 or 4 bytes, or at a jump's target.
//! - [`Node::set_unit`] gives a node a unit of floating point. What its instructions do to it is what `float_unit` says; loads and stores
//!   of its registers are as others. Nothing else changes it, and no step gives a node a unit or takes it away.
//! - [`Node::set_atomics`] gives a node the instructions of A. LR reserves a word, and SC stores if its word is reserved. Each SC, and each
//!   environment call after which the node continues, invalidates the reservation. Their addresses are aligned, else they are `Misaligned`.
//! - A fault leaves the hart as it was, pc too: only state and ticks differ. No jump is a fault. Loads and stores work at any
//!   address, with the least significant byte first.
//! - A node that has made its last tick and still runs is [`Exhausted`](State::Exhausted); one that stops by that very
//!   step keeps the state in which it stopped.
//! - `step` and `run` answer `Ok` for a node that does not run, and change nothing.
//! - [`Node::run_traced`] is `run`, and also reports the addresses at which the steps were made. After a refusal its addresses say nothing.
//! - Memory is refused at stores and at the calls marked (m) alone, after all their checks. The step that needed it has then
//!   changed nothing of the record, ticks included, and can be made again; a run keeps the steps that it made before.
//! - If a page of its range is shared, a store takes memory for a copy of it. A page that is private stays so, and a store over the edge of
//!   two pages owns both before it changes a byte.
//! - Code is decoded once: the pages that the image's bytes reach, when its first node is made, for that node and all that share with
//!   it. A node steps over a block of pages for as long as none of them is private, and this shows in no contract: whoever writes into
//!   code runs what it wrote, at once.
//! - [`Node::try_clone`] gives the same node once more, and [`Node::share`] that of another rank. The memories share their pages, and
//!   what one of the nodes does shows in none of the others.
//! - Room for the turn of the registrations, once made, stays until a step pushes or pops.
//! - At the end of a superstep [`Node::prepare_turn`] makes that room, and [`Node::prepare_land`] makes the pages of a range
//!   private; both may be refused. Then [`Node::land`] writes what an exchange brings, and [`Node::finish_turn`] begins
//!   the next superstep, which cannot be. Each changes just what it names.
//! - [`laws`] has what holds of every node: steps leave it sound, keep its rank, the number of nodes, the size of its
//!   memory and its limit, and add up; and as many steps as it has ticks left end its local part of the superstep.
//!
//! # Environment calls
//!
//! An ECALL makes the [`Call`] whose number is in a7 (x17), with operands in a0 to a4 (x10 to x14). A call makes its
//! checks in the order of the table before it changes anything; the first that fails is the fault. Then pc goes on by 4.
//!
//! | a7 | Call | Checks | Effect |
//! |---|---|---|---|
//! | 1 | `end()` | | the node is `Ended` |
//! | 2 | `nprocs()` | | a0 is the number of nodes |
//! | 3 | `pid()` | | a0 is the rank |
//! | 4 | `sync()` | | the node is `Synced` |
//! | 5 | `push_reg(addr, size)` (m) | range, room | registers the size bytes at addr, from the next superstep on |
//! | 6 | `pop_reg(addr)` (m) | registered for the next superstep | ends the last registration of addr there |
//! | 7, 9 | `put(pid, src, dst, offset, n)`, `hpput` (m) | rank, range of src, dst registered, room | copies the n bytes at src into a put |
//! | 8, 10 | `get(pid, src, offset, dst, n)`, `hpget` (m) | rank, range of dst, src registered, room | makes a get |
//! | 11 | `set_tagsize(addr)` (m) | range of 4, size | the word at addr is the next tag size; the size in effect takes its place |
//! | 12 | `send(pid, tag, payload, n)` (m) | rank, range of the tag, range of the payload, room | copies both into a message |
//! | 13 | `qsize(packets, bytes)` (m) | range of 4, range of 4 | stores the number of messages, then the sum of their payloads' lengths |
//! | 14 | `get_tag(status, tag)` (m) | range of 4; with a message, range of its tag | stores the first payload's length, then the tag; 2^32 - 1 if there is none |
//! | 15 | `move(addr, n)` (m) | with a message, range of k | copies the payload's first k bytes and removes the message |
//! | 16 | `abort(addr, n)` (m) | range, room | the n bytes at addr go to the end of the output; the node is `Aborted` |
//! | 17 | `write(addr, n)` (m) | range, room | the n bytes at addr go to the end of the output |
//! | 18 | `read(addr, n)` (m) | range of k | the next k bytes of the input go to addr; a0 is k |
//! | 19 | the clock's, if the node has one | | a0 is the low word of what the clock shows, a1 the high one |
//!
//! - range: the bytes lie in the memory, else `RangeOutside`. A range of no bytes may begin at its end.
//! - rank: there is a node of that rank, else `BadRank`.
//! - registered: an area is registered with that address, for `put` and `get` in the list in effect, else
//!   `NotRegistered`. The last one counts.
//! - room: the limits of the superstep are kept, else `TooMuch`: those of [`bsp_slots`] for a push, those of
//!   [`bsp_requests`] for requests and output.
//! - size: at most 4,096, else `BadSize`. A tag has the size in effect, which a superstep keeps.
//! - k is n, or what is left if that is less: of the first payload, or of the input, which has 0 bytes left if the cursor is past its end.
//!
//! Any other number is `UnknownCall`, and so is 19 on a node without a clock. If two stores of one call overlap, the one that is named
//! later lands over the other.
//!
//! Sources: The RISC-V Instruction Set Manual, Volume I: Unprivileged ISA, 20191213, chapters 2, 3, 7, 8, 9, 11, 12 and 16, for
//! the instructions; BSPlib (Hill and others, 1998) for the calls but `write` and `read`; `abort` stops its own node alone, and
//! `hpput` and `hpget` are `put` and `get`. Own rules for faults, ticks, output, input, limits and the numbers of the calls.
#![tactic(auto)]

mod call;
mod clock;
mod hart;
pub mod laws;
mod node;
mod state;

pub use call::Call;
pub use clock::Clock;
pub use node::Node;
pub use state::{Fault, State};
