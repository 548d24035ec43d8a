//! Tests of `failing_allocator`.

use failing_allocator::{Called, FailingAllocator, Flaw, FlawKind, Trial, fail_in_turn};
use std::alloc::Global;
use std::test::Fail;

type Heap = FailingAllocator<Global>;

fn is_granted(heap: &Heap) -> bool {
    Box::new(heap, 0u8).is_ok()
}

// Whether of five requests these are granted, and all of them are counted.
fn grants(heap: &Heap, expected: [bool; 5], failures: u64) -> bool {
    for is_expected in expected {
        if is_granted(heap) != is_expected {
            return false;
        }
    }
    heap.requests() == 5 && heap.failures() == failures
}

#[test]
fn requests_are_refused_by_number(rt: HostRuntime) {
    let heap = Heap::new(rt.alloc());
    assert!(rt; grants(&heap, [true; 5], 0));
    heap.fail_nth(2);
    assert!(rt; grants(&heap, [true, false, true, true, true], 1));
    heap.fail_from_nth(3);
    assert!(rt; grants(&heap, [true, true, false, false, false], 3));
    heap.fail_nth(0);
    assert!(rt; grants(&heap, [true; 5], 0));
}

// How a call that makes two requests takes a refusal.
#[derive(Clone, Copy)]
enum Manner {
    // It changes nothing where it is refused one.
    Whole,
    // It keeps the first where it is refused the second.
    KeepsHalf,
    // It does without the second where it is refused that.
    ForgetsHalf,
    // It says that it is refused what it did not ask for.
    GivesUp,
}

// A call that notes which of its requests were granted, which is all that it changes.
#[derive(Drop)]
struct Asks<'h> {
    heap: &'h Heap,
    manner: Manner,
}

impl Trial for Asks<'_> {
    type Subject = [bool; 2];

    fn subject(&self) -> Result<[bool; 2], Fail> {
        Ok([false; 2])
    }

    fn call(&self, noted: &mut [bool; 2]) -> Result<Called, Fail> {
        let is_first = !matches!(self.manner, Manner::GivesUp) && is_granted(self.heap);
        let is_second = is_first && is_granted(self.heap);
        if is_second || !matches!(self.manner, Manner::Whole) {
            *noted = [is_first, is_second];
        }
        if is_second || is_first && matches!(self.manner, Manner::ForgetsHalf) {
            Ok(Called::Made)
        } else {
            Ok(Called::Refused)
        }
    }

    fn are_same(&self, noted: &[bool; 2], other: &[bool; 2]) -> Result<bool, Fail> {
        Ok(noted == other)
    }
}

#[test]
fn a_trial_finds_what_is_wrong_with_a_call(rt: HostRuntime) -> Result<(), Fail> {
    let heap = Heap::new(rt.alloc());
    for (manner, found) in [
        (Manner::Whole, Ok(2)),
        (Manner::KeepsHalf, flaw(2, FlawKind::LeavesOther)),
        (Manner::ForgetsHalf, flaw(2, FlawKind::EndsElsewhere)),
        (Manner::GivesUp, flaw(0, FlawKind::WantsNothing)),
    ] {
        let heap = &heap;
        assert!(rt; fail_in_turn(heap, &Asks { heap, manner })? == found);
    }
    Ok(())
}

fn flaw(request: u64, kind: FlawKind) -> Result<u64, Flaw> {
    Err(Flaw { request, kind })
}
