//! The clock of a node.

ghost use Rattle.std.specs.Prelude.{◌≡◌, option_map};
ghost use Rattle.node_core.specs.Clock.{time, time_at};

/// What a node's clock counts on from: what the supersteps cost that are over, and how many ticks the node had made when this one
/// began (own rule, after the cost model of BSP).
#[derive(Clone, Copy, Debug, PartialEq, Eq)]
pub struct Clock {
    /// The cost of the supersteps that are over.
    pub closed: u128,
    /// The ticks that the node had made when this superstep began.
    pub since: u64,
}

impl Clock {
    /// What it shows where its node has made so many ticks: at most 2^64 - 1.
    fn time(&self, ticks: u64) -> u64
        ensures { result ≡ time self.now ticks }
    {
        let private = u128::from(ticks.saturating_sub(self.since));
        let time = self.closed.saturating_add(private);
        time.min(u128::from(u64::MAX)) as u64
    }
}

/// What the clock of a node shows, if it has one, where the node has made so many ticks.
pub(crate) fn time_of(clock: Option<Clock>, ticks: u64) -> Option<u64>
    ensures { result ≡ time_at clock ticks }
{
    match clock {
        Some(clock) => Some(clock.time(ticks)),
        None => None,
    }
}
