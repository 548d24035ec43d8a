//! Tests of `exposed_bytes`.

use exposed_bytes::{Call, Exposure, Sort, exposures};
use failing_allocator::FailingAllocator;
use std::alloc::{Allocator, Global};

// An unbuffered get of rank 0 from rank 1.
const GET: Call = Call {
    caller: 0,
    number: 0,
    sort: Sort::HpGet,
    place: 1,
    len: 4,
    source_rank: 1,
    source: 0,
    target_rank: 0,
    target: 0,
};

// A put of rank 2 to two of the bytes that it reads.
const PUT: Call = Call {
    caller: 2,
    number: 1,
    sort: Sort::Put,
    place: 2,
    len: 4,
    source_rank: 2,
    source: 8,
    target_rank: 1,
    target: 2,
};

const BOTH: Exposure = Exposure {
    reader: GET,
    writer: PUT,
    rank: 1,
    addr: 2,
    len: 2,
};

// Whether these are the ranges that calls expose.
fn exposes<A: Allocator + Copy>(alloc: A, calls: &[Call], expected: &[Exposure]) -> bool {
    match exposures(alloc, calls) {
        Ok(found) => found.as_slice() == expected,
        Err(_) => false,
    }
}

#[test]
fn what_an_unbuffered_get_reads_and_a_put_writes_is_exposed(rt: HostRuntime) {
    assert!(rt; exposes(rt.alloc(), &[PUT, GET], &[BOTH]));
    assert!(rt; exposes(rt.alloc(), &[PUT, PUT], &[]));
}

#[test]
fn each_refusal_of_memory_is_answered(rt: HostRuntime) {
    let heap = FailingAllocator::<Global>::new(rt.alloc());
    for request in 1..=5 {
        heap.fail_from_nth(request);
        assert!(rt; exposures(&heap, &[GET, PUT]).is_err());
    }
    heap.fail_nth(0);
    assert!(rt; exposes(&heap, &[GET, PUT], &[BOTH]));
}
