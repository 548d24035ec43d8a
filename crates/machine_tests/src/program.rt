//! A program that makes every call that takes memory, and a machine that runs it.

use failing_allocator::FailingAllocator;
use machine_core::{Machine, Settings};
use rv_asm::assemble;
use rv_atomics::Extensions;
use std::alloc::{Allocator, Global};

/// The memory of what is refused.
pub type Heap = FailingAllocator<Global>;

/// Each rank stores a word and makes the calls of the table, six words each, and writes the digit of its rank between two exchanges. What
/// is stored, answered or lands comes into pages that are shared until then, over the edges of two of them, and in part over what lands
/// too. After the calls stands a statement of each further kind.
pub const TEXT: &str = "\
        li   a7, 3          # pid()
        ecall
        addi a0, a0, 48
        sb   a0, 0x600(x0)
        la   s1, calls
        li   t0, 0x5FFE
        sw   a0, 0(t0)
loop:   lw   a7, 0(s1)
        lw   a0, 4(s1)
        lw   a1, 8(s1)
        lw   a2, 12(s1)
        lw   a3, 16(s1)
        lw   a4, 20(s1)
        addi s1, s1, 24
        ecall
        j    loop
size:   .word 4
text:   .ascii \"more than a few bytes of a message\"
        .align 2
calls:  .word 11, size, 0, 0, 0, 0              # set_tagsize
        .word 5, 0x2000, 0x1010, 0, 0, 0        # push_reg
        .word 12, 0, text, text, 3, 0           # send, without a tag
        .word 12, 1, text, text, 3, 0
        .word 4, 0, 0, 0, 0, 0                  # sync
        .word 18, 0x6FFF, 2, 0, 0, 0            # read
        .word 5, 0x4000, 4, 0, 0, 0
        .word 7, 0, 0x600, 0x2000, 0xFFE, 4     # put
        .word 7, 1, 0x600, 0x2000, 0xFF0, 32
        .word 8, 0, 0x2000, 4, 0x3FFE, 4        # get
        .word 8, 1, 0x2000, 0xFFE, 0x1204, 4
        .word 9, 1, 0x5FFE, 0x2000, 8, 5        # hpput
        .word 10, 1, 0x2000, 4, 0x7FFE, 5       # hpget
        .word 12, 0, text, text, 3, 0
        .word 12, 1, text, text, 30, 0
        .word 17, 0x600, 1, 0, 0, 0             # write
        .word 4, 0, 0, 0, 0, 0
        .word 11, 0x8FFE, 0, 0, 0, 0
        .word 13, 0x9FFE, 0xAFFE, 0, 0, 0       # qsize
        .word 14, 0xBFFE, 0xCFFE, 0, 0, 0       # get_tag
        .word 15, 0xDFFD, 9, 0, 0, 0            # move
        .word 6, 0x2000, 0, 0, 0, 0             # pop_reg
        .word 7, 0, 0x600, 0x4000, 0, 4
        .word 4, 0, 0, 0, 0, 0
        .word 1, 0, 0, 0, 0, 0                  # end
kinds:  .byte 1, 2
        .half 3
        .space 11
        .align 2
        beq  x0, x0, kinds
        li   a0, -2049
        fadd.d fa0, fa1, fa2
        amoadd.w a0, a1, (a2)
";

/// The language of the program.
pub const LANGUAGE: Extensions = Extensions {
    float: true,
    atomic: true,
};

/// Each rank aborts with a message.
pub const ABORTS: &str = "li a0, 0\nli a1, 4\nli a7, 16\necall\n";

pub const NODES: u32 = 2;

/// 16 pages.
pub const MEMORY: u32 = 0x1_0000;

pub const SETTINGS: Settings = Settings {
    nodes: NODES,
    memory: MEMORY,
    limit: 10_000,
    clock: None,
    float: false,
    atomic: false,
    large: false,
};

/// The input of each node.
pub const INPUT: &[u8] = b"in";

/// A machine at the start of a program.
pub fn machine<A: Allocator + Copy>(
    alloc: A,
    text: &str,
    settings: Settings,
) -> Option<Machine<A>> {
    if text.len() > 0x1000 {
        return None;
    }
    let Ok(image) = assemble(alloc, LANGUAGE, text.as_bytes()) else {
        return None;
    };
    let Ok(input) = Vec::from_slice(alloc, INPUT) else {
        return None;
    };
    Machine::new(alloc, &image, input, settings).ok()
}
