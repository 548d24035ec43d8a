//! A gate that releases nodes only in a given order, which a pool that runs one node after another cannot follow.

use crate::program::machine;
use machine_core::{Machine, Outcome, Settings};
use node_core::Node;
use std::alloc::{Allocator, Global};
use std::sync::Wait;
use std::sync::atomic::{AtomicBool, AtomicU64, Ordering};
use std::thread::Threads;
use worker_pool::{Gate, run, run_phase};

// How often a gate looks before it gives up.
const LOOKS: u64 = 1_000_000_000;

// Ten steps to the end of each node.
const ENDS: &str = "nop\nnop\nnop\nnop\nnop\nnop\nnop\nnop\nli a7, 1\necall\n";

const SETTINGS: Settings = Settings {
    nodes: 0,
    memory: 0x1000,
    limit: 10,
    clock: None,
    float: false,
    atomic: false,
    large: false,
};

// How many nodes leave, and by how many workers, each with how long slices.
#[derive(Clone, Copy)]
struct Row {
    nodes: u32,
    workers: u32,
    slice: u64,
    // For each rank, how many leave before it.
    places: [u64; 4],
    // How often nodes leave in all, and the ticks of each that does, as the hexadecimal digits of a number.
    leaves: u64,
    ticks: u64,
}

// The values of rows, in the order of their names.
static ROWS: [(u32, u32, u64, [u64; 4], u64, u64); 9] = [
    // Two nodes are run at once.
    (2, 2, 65_536, [1, 0, 0, 0], 2, 0xaa),
    // So are three, and they leave in any order.
    (3, 3, 65_536, [0, 1, 2, 0], 3, 0xaaa),
    (3, 3, 65_536, [0, 2, 1, 0], 3, 0xaaa),
    (3, 3, 65_536, [1, 0, 2, 0], 3, 0xaaa),
    (3, 3, 65_536, [1, 2, 0, 0], 3, 0xaaa),
    (3, 3, 65_536, [2, 0, 1, 0], 3, 0xaaa),
    (3, 3, 65_536, [2, 1, 0, 0], 3, 0xaaa),
    // One worker is held back at the first node, and the other takes all else.
    (4, 2, 65_536, [3, 0, 0, 0], 4, 0xaaaa),
    // A node is given back after each slice.
    (4, 1, 3, [0, 0, 0, 0], 16, 0x3333_6666_9999_aaaa),
];

#[derive(Drop)]
struct OrderGate {
    places: [u64; 4],
    left: AtomicU64,
    ticks: AtomicU64,
    has_given_up: AtomicBool,
}

impl OrderGate {
    fn new(places: [u64; 4]) -> OrderGate {
        OrderGate {
            places,
            left: AtomicU64::new(0),
            ticks: AtomicU64::new(0),
            has_given_up: AtomicBool::new(false),
        }
    }

    // Waits until so many nodes have left, and answers whether they have.
    fn lets_leave(&self, place: u64) -> bool {
        for _ in 0..LOOKS {
            if self.left.load(Ordering::SeqCst) >= place {
                return true;
            }
        }
        false
    }

    // Whether nodes left as a row says.
    fn has_seen(&self, row: &Row) -> bool {
        !self.has_given_up.load(Ordering::SeqCst)
            && self.left.load(Ordering::SeqCst) == row.leaves
            && self.ticks.load(Ordering::SeqCst) == row.ticks
    }
}

fn place_of(places: &[u64; 4], rank: u32) -> u64 {
    match places.get(rank as usize) {
        Some(place) => *place,
        None => 0,
    }
}

impl<A: Allocator> Gate<A> for OrderGate {
    fn enter(&self, _rank: u32) {}

    fn leave(&self, rank: u32, node: &Node<A>) {
        if !self.lets_leave(place_of(&self.places, rank)) {
            self.has_given_up.store(true, Ordering::SeqCst);
        }
        // Before the next one may leave.
        let ticks = self.ticks.load(Ordering::SeqCst).wrapping_mul(16);
        self.ticks
            .store(ticks.wrapping_add(node.ticks()), Ordering::SeqCst);
        self.left.fetch_add(1, Ordering::SeqCst);
    }
}

// Whether the nodes of a row come to their end as it says, in a phase and a turn, or in a run.
fn come_to_their_end<R: Threads + Wait + Sync>(
    rt: &R,
    machine: &mut Machine<Global>,
    gate: &OrderGate,
    row: &Row,
    by_phase: bool,
) -> bool {
    let is_made = if by_phase {
        run_phase(rt, machine, row.workers, row.slice, gate).is_ok() && machine.turn() == Ok(true)
    } else {
        run(rt, machine, row.workers, row.slice, gate).is_ok()
    };
    is_made && machine.outcome() == Some(Outcome::Ended) && gate.has_seen(row)
}

fn leave_in_order<R: Threads + Wait + Sync>(
    rt: &R,
    alloc: Global,
    row: &Row,
    by_phase: bool,
) -> bool {
    let settings = Settings {
        nodes: row.nodes,
        ..SETTINGS
    };
    let Some(mut machine) = machine(alloc, ENDS, settings) else {
        return false;
    };
    let gate = OrderGate::new(row.places);
    come_to_their_end(rt, &mut machine, &gate, row, by_phase)
}

#[test]
fn nodes_leave_in_any_order_and_after_each_slice(rt: HostRuntime) {
    for (nodes, workers, slice, places, leaves, ticks) in ROWS {
        let row = Row {
            nodes,
            workers,
            slice,
            places,
            leaves,
            ticks,
        };
        for by_phase in [false, true] {
            assert!(rt;
                leave_in_order(&rt, rt.alloc(), &row, by_phase),
                "{places:?}"
            );
        }
    }
}
