//! The rule of the table.

use crate::view::View;
use atomic_table::TableRule;
use node_core::Node;
use std::alloc::Allocator;
use std::snapshot::Snapshot;

/// What the table is told when it is made: the row of nodes as it is then, and the input.
#[derive(Drop)]
pub struct PhaseStart<'p, A: Allocator> {
    pub row: Snapshot<Vec<Node<A>, A>>,
    pub input: &'p [u8],
}

/// The rule that holds between any two steps of threads at the table.
pub struct ClaimRule;

impl<'p, A: Allocator> TableRule<Option<Node<A>>, View, PhaseStart<'p, A>> for ClaimRule {
    ghost use Rattle.claim_table.specs.Claims.{IsClaimTable};
    ghost use Rattle.claim_table.specs.ClaimSteps.{keeper_view};
    ghost use Rattle.claim_table.specs.Start.{start_of};

    ghost holds = { λ start. IsClaimTable (start_of start) };

    ghost first = { λ _. keeper_view 0 };
}
