//! Machines that are refused each of their requests for memory: when they are copied, in a turn that makes the exchange, and in a run of
//! two workers.

use crate::program::{ABORTS, Heap, NODES, SETTINGS, TEXT, machine};
use machine_core::Machine;
use same_nodes::are_same_rows;
use std::alloc::{AllocError, Allocator};
use std::sync::Wait;
use std::test::Fail;
use std::thread::Threads;
use worker_pool::{OpenGate, PoolError, run};

// What is made of a machine.
#[derive(Clone, Copy)]
enum Call {
    // It becomes its copy.
    Copies,
    // It plans the exchange and makes it.
    Turns,
    // It comes to its end. It makes as many requests each time, whichever thread makes them.
    Runs,
}

// A call, the program of the machine, and how many requests for memory the call makes.
struct Row {
    name: &'static str,
    call: Call,
    text: &'static str,
    requests: u64,
}

static ROWS: [Row; 4] = [
    Row {
        name: "try_clone of a machine",
        call: Call::Copies,
        text: TEXT,
        requests: 29,
    },
    Row {
        name: "turn, all kinds of requests",
        call: Call::Turns,
        text: TEXT,
        requests: 26,
    },
    Row {
        name: "run, 2 workers",
        call: Call::Runs,
        text: TEXT,
        requests: 109,
    },
    Row {
        name: "run, 2 workers, to an abort",
        call: Call::Runs,
        text: ABORTS,
        requests: 9,
    },
];

// Whether nothing tells one machine from another.
fn are_same<A: Allocator + Copy>(machine: &Machine<A>, other: &Machine<A>) -> bool {
    have_come_as_far(machine, other)
        && machine.input() == other.input()
        && machine.settings() == other.settings()
        && are_same_rows(machine.nodes(), other.nodes()).unwrap_or(false)
}

fn have_come_as_far<A: Allocator>(machine: &Machine<A>, other: &Machine<A>) -> bool {
    machine.outcome() == other.outcome()
        && machine.superstep() == other.superstep()
        && machine.output() == other.output()
        && machine.ledger().rows() == other.ledger().rows()
        && machine.started() == other.started()
}

// Makes a superstep.
fn is_led_on<A: Allocator + Copy>(machine: &mut Machine<A>) -> bool {
    machine.run_phase_plain().is_ok() && machine.turn() == Ok(true)
}

// Leads a machine from its start to where the call is made. A machine that is copied or that turns waits in its second superstep, with
// messages, areas, requests, output and private pages.
fn is_led_to_call<A: Allocator + Copy>(machine: &mut Machine<A>, call: Call) -> bool {
    match call {
        Call::Runs => true,
        Call::Copies | Call::Turns => is_led_on(machine) && machine.run_phase_plain().is_ok(),
    }
}

fn ticks_of<A: Allocator>(machine: &Machine<A>, rank: u32) -> u64 {
    match machine.node(rank) {
        Some(node) => node.ticks(),
        None => 0,
    }
}

// Whether some steps and turns lead from a machine at its start to one that was refused memory: just as many as that shows.
fn leads_to<A: Allocator + Copy>(start: &mut Machine<A>, refused: &Machine<A>) -> bool {
    for _ in refused.ledger().rows() {
        if !is_led_on(start) {
            return false;
        }
    }
    for rank in 0..NODES {
        let steps = ticks_of(refused, rank).saturating_sub(ticks_of(start, rank));
        if start.run_node(rank, steps).is_err() {
            return false;
        }
    }
    are_same(refused, start)
}

// What a call came to.
#[derive(Clone, Copy, PartialEq, Eq)]
enum Called {
    Made,
    // It answered want of memory.
    Refused,
    // It answered what it must not.
    Wrong,
}

fn copy<A: Allocator + Copy>(machine: &mut Machine<A>) -> Called {
    match machine.try_clone() {
        Ok(copy) => {
            *machine = copy;
            Called::Made
        }
        Err(AllocError) => Called::Refused,
    }
}

fn turn<A: Allocator + Copy>(machine: &mut Machine<A>) -> Called {
    match machine.turn() {
        Ok(true) => Called::Made,
        Ok(false) => Called::Wrong,
        Err(AllocError) => Called::Refused,
    }
}

fn run_by_two<R: Threads + Wait + Sync, A: Allocator + Copy + Send + Sync>(
    rt: &R,
    machine: &mut Machine<A>,
) -> Called {
    match run(rt, machine, 2, 65_536, &OpenGate) {
        Ok(()) => Called::Made,
        Err(PoolError::NoMemory) => Called::Refused,
        Err(_) => Called::Wrong,
    }
}

fn make<R: Threads + Wait + Sync, A: Allocator + Copy + Send + Sync>(
    rt: &R,
    call: Call,
    machine: &mut Machine<A>,
) -> Called {
    match call {
        Call::Copies => copy(machine),
        Call::Turns => turn(machine),
        Call::Runs => run_by_two(rt, machine),
    }
}

// A copy of a machine that stands at its start, led to where the call is made.
fn subject<A: Allocator + Copy>(start: &Machine<A>, call: Call) -> Option<Machine<A>> {
    let Ok(mut machine) = start.try_clone() else {
        return None;
    };
    if is_led_to_call(&mut machine, call) {
        Some(machine)
    } else {
        None
    }
}

// Whether a refused call may leave this of a machine that stood so before it: just that, or of a run some whole steps and turns.
fn may_stand<A: Allocator + Copy>(
    call: Call,
    refused: &Machine<A>,
    before: &mut Machine<A>,
) -> bool {
    match call {
        Call::Runs => leads_to(before, refused),
        Call::Copies | Call::Turns => are_same(refused, before),
    }
}

// Whether a call, some of whose requests are refused by now, stops where it may, and ends as a whole one does when it is made again. So
// does one that did without what it was refused.
fn ends_the_same<R: Threads + Wait + Sync, A: Allocator + Copy + Send + Sync>(
    rt: &R,
    heap: &Heap,
    call: Call,
    before: &mut Machine<A>,
    machine: &mut Machine<A>,
    whole: &Machine<A>,
) -> bool {
    let called = make(rt, call, machine);
    let has_refused = heap.failures() > 0;
    heap.fail_nth(0);
    let is_right = match called {
        Called::Made => true,
        Called::Refused => {
            may_stand(call, machine, before) && make(rt, call, machine) == Called::Made
        }
        Called::Wrong => false,
    };
    has_refused && is_right && are_same(machine, whole)
}

// Whether a call is right of which a request is refused, alone or with all from it on.
fn is_right<R: Threads + Wait + Sync, A: Allocator + Copy + Send + Sync>(
    rt: &R,
    heap: &Heap,
    call: Call,
    start: &Machine<A>,
    whole: &Machine<A>,
    refused: (u64, bool),
) -> bool {
    let Some(mut before) = subject(start, call) else {
        return false;
    };
    let Some(mut machine) = subject(start, call) else {
        return false;
    };
    match refused {
        (nth, false) => heap.fail_nth(nth),
        (nth, true) => heap.fail_from_nth(nth),
    }
    ends_the_same(rt, heap, call, &mut before, &mut machine, whole)
}

// The first request of a call which, refused alone or with all from it on, leaves what may not stand or leads to another end.
fn first_wrong<R: Threads + Wait + Sync, A: Allocator + Copy + Send + Sync>(
    rt: &R,
    heap: &Heap,
    row: &Row,
    start: &Machine<A>,
    whole: &Machine<A>,
) -> Option<u64> {
    for nth in 1..=row.requests {
        if !is_right(rt, heap, row.call, start, whole, (nth, false))
            || !is_right(rt, heap, row.call, start, whole, (nth, true))
        {
            return Some(nth);
        }
    }
    None
}

// How many requests the call of a row makes of a machine, and the first that is wrong. Without an answer it is not made where nothing is
// refused.
fn requests_from<R: Threads + Wait + Sync, A: Allocator + Copy + Send + Sync>(
    rt: &R,
    heap: &Heap,
    row: &Row,
    start: &Machine<A>,
) -> Option<(u64, Option<u64>)> {
    let mut whole = subject(start, row.call)?;
    heap.fail_nth(0);
    if make(rt, row.call, &mut whole) != Called::Made {
        return None;
    }
    let requests = heap.requests();
    Some((requests, first_wrong(rt, heap, row, start, &whole)))
}

fn requests_of<R: Threads + Wait + Sync, A: Allocator + Copy + Send + Sync>(
    rt: &R,
    heap: &Heap,
    alloc: A,
    row: &Row,
) -> Option<(u64, Option<u64>)> {
    let start = machine(alloc, row.text, SETTINGS)?;
    requests_from(rt, heap, row, &start)
}

#[test]
fn what_is_refused_to_a_machine_it_gets_later(rt: HostRuntime) -> Result<(), Fail> {
    let heap = Heap::new(rt.alloc());
    for row in &ROWS {
        let found = requests_of(&rt, &heap, &heap, row);
        println!(rt;
            "{found:?} of {} requests refused: {}",
            row.requests, row.name
        )?;
        assert!(rt; found == Some((row.requests, None)));
    }
    Ok(())
}

// Whether a machine and its copy are the same, and after the run of the one the other still is what it was, and ends the same.
fn end_the_same<R: Threads + Wait + Sync, A: Allocator + Copy + Send + Sync>(
    rt: &R,
    machine: &mut Machine<A>,
    copy: &mut Machine<A>,
    before: &Machine<A>,
) -> bool {
    are_same(machine, copy)
        && machine.run_plain().is_ok()
        && are_same(copy, before)
        && run(rt, copy, 2, 65_536, &OpenGate) == Ok(())
        && are_same(copy, machine)
        && machine.output() == b"01".as_slice()
}

fn ends_with<R: Threads + Wait + Sync, A: Allocator + Copy + Send + Sync>(
    rt: &R,
    machine: &mut Machine<A>,
    copy: &mut Machine<A>,
) -> bool {
    match copy.try_clone() {
        Ok(before) => end_the_same(rt, machine, copy, &before),
        Err(AllocError) => false,
    }
}

fn ends_with_its_copy<R: Threads + Wait + Sync, A: Allocator + Copy + Send + Sync>(
    rt: &R,
    start: &Machine<A>,
) -> bool {
    let Some(mut machine) = subject(start, Call::Copies) else {
        return false;
    };
    match machine.try_clone() {
        Ok(mut copy) => ends_with(rt, &mut machine, &mut copy),
        Err(AllocError) => false,
    }
}

#[test]
fn a_copy_of_a_machine_ends_as_the_machine(rt: HostRuntime) {
    let is_right = match machine(rt.alloc(), TEXT, SETTINGS) {
        Some(start) => ends_with_its_copy(&rt, &start),
        None => false,
    };
    assert!(rt; is_right);
}
