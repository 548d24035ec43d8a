//! Tries a call with each of its memory requests failing in turn.

use crate::FailingAllocator;
use std::fmt;
use std::fmt::{Display, Formatter, Write};
use std::io::Print;
use std::test::Fail;

/// More requests than any call makes that is tried.
const MOST_REQUESTS: u64 = 10_000;

/// What a call came to.
#[derive(Clone, Copy, Debug, PartialEq, Eq)]
pub enum Called {
    /// It answered something else than lack of memory.
    Made,
    /// It answered lack of memory.
    Refused,
}

/// A call to be tried with its requests for memory failed, and what it is made on: a node or a machine, or no more than a place for
/// its answer.
///
/// An error of these functions ends the trial. It stands for what has nothing to do with the failures: a subject that cannot be made,
/// or an answer that the call must not give at all.
pub trait Trial {
    /// What the call is made on, with what it answered.
    type Subject: Drop;

    /// What is before the call: the same each time. Nothing is failed meanwhile.
    fn subject(&self) -> Result<Self::Subject, Fail>;

    /// Makes the call.
    fn call(&self, subject: &mut Self::Subject) -> Result<Called, Fail>;

    /// Whether nothing tells one from the other.
    fn are_same(&self, subject: &Self::Subject, other: &Self::Subject) -> Result<bool, Fail>;

    /// Whether a failed call may leave this: what was there before it, if no more is said.
    fn may_stand(&self, failed: &Self::Subject, before: &Self::Subject) -> Result<bool, Fail> {
        self.are_same(failed, before)
    }
}

/// What is wrong with a call whose requests were failed from number `request` on, or that one alone. It is 0 if none was.
#[derive(Clone, Copy, Debug, PartialEq, Eq)]
pub struct Flaw {
    pub request: u64,
    pub kind: FlawKind,
}

/// What is wrong with a call.
#[derive(Clone, Copy, Debug, PartialEq, Eq)]
pub enum FlawKind {
    /// It answers lack of memory if nothing was failed.
    WantsNothing,
    /// At a failure it leaves what may not stand then.
    LeavesOther,
    /// Made again, or with a request failed that it can do without, it has another end than if nothing is failed.
    EndsElsewhere,
    /// Its requests have no end.
    Endless,
}

/// What a trial compares with: the subject before its call, and after one of which nothing was failed.
#[derive(Drop)]
struct Ends<S> {
    before: S,
    after: S,
}

/// Why a trial is broken off.
enum Break {
    Flaw(Flaw),
    Fail(Fail),
}

impl From<Fail> for Break {
    fn from(fail: Fail) -> Break {
        Break::Fail(fail)
    }
}

impl FlawKind {
    /// # Errors
    /// This flaw of a call with that request failed, if it is there.
    fn unless(self, holds: bool, request: u64) -> Result<(), Break> {
        if holds {
            Ok(())
        } else {
            let kind = self;
            Err(Break::Flaw(Flaw { request, kind }))
        }
    }
}

impl Display for FlawKind {
    fn fmt<W: Write>(&self, f: &mut Formatter<W>) -> fmt::Result {
        f.write_str(match self {
            FlawKind::WantsNothing => "wants memory that was not failed",
            FlawKind::LeavesOther => "leaves what may not stand",
            FlawKind::EndsElsewhere => "has another end",
            FlawKind::Endless => "has requests without end",
        })
    }
}

/// Tries a call with its request 1, 2, 3, .. failed, and with all from that one on, until a call meets no failure. Answers how many
/// requests it makes, or its first flaw.
///
/// If the call failed, what it leaves has to be what may stand then. It is made again, with nothing failed, and has to end as one of which
/// nothing was. So has a call that did without the request that failed.
///
/// # Errors
/// That of the trial itself.
pub fn fail_in_turn<B, T: Trial>(
    heap: &FailingAllocator<B>,
    trial: &T,
) -> Result<Result<u64, Flaw>, Fail> {
    match count_requests(heap, trial) {
        Ok(requests) => Ok(Ok(requests)),
        Err(Break::Flaw(flaw)) => Ok(Err(flaw)),
        Err(Break::Fail(fail)) => Err(fail),
    }
}

/// Tries a call as [`fail_in_turn`] does, and prints its name and how many requests it makes.
///
/// # Errors
/// That of the trial itself, or its flaw; and another number of requests than is expected.
pub fn expect_requests<R: Print, B, T: Trial>(
    rt: &R,
    heap: &FailingAllocator<B>,
    name: &str,
    trial: &T,
    expected: u64,
) -> Result<(), Fail> {
    match fail_in_turn(heap, trial)? {
        Ok(requests) if requests == expected => {
            println!(rt; "{requests:4} failed: {name}")?;
            Ok(())
        }
        Ok(requests) => Err(Fail::new(format_args!(
            "{name}: {requests} requests, where {expected} are expected"
        ))),
        Err(Flaw { request, kind }) => {
            Err(Fail::new(format_args!("{name}, request {request}: {kind}")))
        }
    }
}

fn count_requests<B, T: Trial>(heap: &FailingAllocator<B>, trial: &T) -> Result<u64, Break> {
    heap.fail_nth(0);
    let before = trial.subject()?;
    let mut after = trial.subject()?;
    let called = trial.call(&mut after)?;
    FlawKind::WantsNothing.unless(called == Called::Made, 0)?;
    let ends = Ends { before, after };
    for nth in 1..=MOST_REQUESTS {
        if !fails(heap, trial, &ends, nth, nth)? {
            return Ok(nth - 1);
        }
        fails(heap, trial, &ends, nth, u64::MAX)?;
    }
    FlawKind::Endless.unless(false, MOST_REQUESTS)?;
    Ok(MOST_REQUESTS)
}

/// Makes a call of which the requests from `first` to `last` are failed, and again if it wants them. Whether any was.
fn fails<B, T: Trial>(
    heap: &FailingAllocator<B>,
    trial: &T,
    ends: &Ends<T::Subject>,
    first: u64,
    last: u64,
) -> Result<bool, Break> {
    let mut subject = trial.subject()?;
    heap.requests.start_again(first, last);
    let called = trial.call(&mut subject);
    let has_refused = heap.failures() > 0;
    heap.fail_nth(0);
    if called? == Called::Refused {
        FlawKind::WantsNothing.unless(has_refused, first)?;
        let may_stand = trial.may_stand(&subject, &ends.before)?;
        FlawKind::LeavesOther.unless(may_stand, first)?;
        let again = trial.call(&mut subject)?;
        FlawKind::WantsNothing.unless(again == Called::Made, first)?;
    }
    let is_same = trial.are_same(&subject, &ends.after)?;
    FlawKind::EndsElsewhere.unless(is_same, first)?;
    Ok(has_refused)
}
