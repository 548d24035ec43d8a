//! A test allocator that counts the requests for memory and fails those that a test chooses.
//!
//! A [`FailingAllocator`] wraps another allocator and passes each call on to it, except the requests that it fails.
//! A test takes a handle to it by `&`, which is an allocator too and is `Copy`, fails request 1, 2, 3, .. of a call in
//! turn, and looks at what the call left:
//!
//! ```rust
//! let heap = FailingAllocator::new(rt.alloc());
//! let mut items = Vec::new(&heap);
//! heap.fail_nth(1);
//! assert!(rt; items.push(7).is_err());
//! ```
//!
//! - A request is a call of `allocate`, `grow` or `shrink`, so each growth of a vector is one. Giving a block back is not a request.
//! - Requests are numbered from 1, and from 1 again after each [`fail_nth`](FailingAllocator::fail_nth) and
//!   [`fail_from_nth`](FailingAllocator::fail_from_nth).
//! - Threads may share it. Each request gets its own number.
//!
//! [`fail_in_turn`] does all of this for a call that is a [`Trial`]: it fails each of its requests, looks at what is left, and makes the
//! call again. [`expect_requests`] also says how many requests there are, so that a test fails if one comes or goes.
//!
//! It is proved that it is an allocator, whatever allocator is inside: a block that it hands out fits the request, and the inner allocator
//! takes it back, from any thread if the inner allocator does. It is also proved for the function that decides it which numbers fail. Only
//! tests show that requests get the numbers 1, 2, 3, .. and that both counts are right, because a clause cannot name the content of an
//! atomic.
#![tactic(auto)]

ghost use Rattle.std.specs.Prelude.{◌≡◌, ◌≤◌, ◌↔◌, IsTrue};

mod trial;

use std::alloc::{AllocError, Allocator};
use std::sync::atomic::{AtomicU64, Ordering};
pub use trial::{Called, Flaw, FlawKind, Trial, expect_requests, fail_in_turn};

/// An allocator that passes each call on to `inner`, except the requests that it fails.
#[derive(Drop)]
pub struct FailingAllocator<B> {
    inner: B,
    requests: Requests,
}

// What was requested and failed so far, and the numbers of the requests that are failed.
#[derive(Drop)]
struct Requests {
    first_failing: AtomicU64,
    last_failing: AtomicU64,
    counted: AtomicU64,
    failed: AtomicU64,
}

impl<B> FailingAllocator<B> {
    /// A wrapper that fails nothing.
    pub fn new(inner: B) -> Self
        ensures { result.inner ≡ inner }
    {
        FailingAllocator {
            inner,
            requests: Requests::new(),
        }
    }

    /// Fails the `n`-th request from now on, for `n` from 1, and no other. If `n` is 0 it fails nothing.
    ///
    /// Both counts start again at 0. A request that another thread makes meanwhile may be counted or not.
    pub fn fail_nth(&self, n: u64) {
        self.requests.start_again(n, n);
    }

    /// Fails the `n`-th request from now on, for `n` from 1, and each one after it.
    ///
    /// Both counts start again at 0. A request that another thread makes meanwhile may be counted or not.
    pub fn fail_from_nth(&self, n: u64) {
        self.requests.start_again(n, u64::MAX);
    }

    /// How many requests were made since the counts were last started, failed ones included.
    pub fn requests(&self) -> u64 {
        self.requests.counted.load(Ordering::SeqCst)
    }

    /// How many requests were failed since the counts were last started.
    pub fn failures(&self) -> u64 {
        self.requests.failed.load(Ordering::SeqCst)
    }
}

unsafe impl<B: Allocator> Allocator for FailingAllocator<B> {
    ghost dealloc_token = { λ heap ty ptr. B.dealloc_token heap.inner ty ptr };

    fn allocate(&self, size: usize, align: usize) -> Result<*mut u8, AllocError> {
        if self.requests.next_fails() {
            Err(AllocError)
        } else {
            self.inner.allocate(size, align)
        }
    }

    unsafe fn deallocate(&self, ptr: *mut u8, size: usize, align: usize) {
        self.inner.deallocate(ptr, size, align);
    }
}

impl Requests {
    fn new() -> Requests {
        Requests {
            first_failing: AtomicU64::new(0),
            last_failing: AtomicU64::new(0),
            counted: AtomicU64::new(0),
            failed: AtomicU64::new(0),
        }
    }

    fn start_again(&self, first_failing: u64, last_failing: u64) {
        self.first_failing.store(first_failing, Ordering::SeqCst);
        self.last_failing.store(last_failing, Ordering::SeqCst);
        self.counted.store(0, Ordering::SeqCst);
        self.failed.store(0, Ordering::SeqCst);
    }

    // Counts a request, and answers whether it is failed.
    fn next_fails(&self) -> bool {
        let before = self.counted.fetch_add(1, Ordering::SeqCst);
        let first = self.first_failing.load(Ordering::SeqCst);
        let last = self.last_failing.load(Ordering::SeqCst);
        let failed = fails(before.saturating_add(1), first, last);
        if failed {
            self.failed.fetch_add(1, Ordering::SeqCst);
        }
        failed
    }
}

fn fails(number: u64, first_failing: u64, last_failing: u64) -> bool
    ensures { IsTrue result ↔ ((first_failing ≤ number) × (number ≤ last_failing)) }
{
    first_failing <= number && number <= last_failing
}
