//! What a thread knows of the table.

ghost use Rattle.std.specs.Prelude.{ℕ, Bool, List};
ghost use base.Fml.{ftrue};
ghost use Rattle.node_core.specs.Node.{NodeState};

use std::marker::Model;

/// What a seat at the table knows, for the proofs alone.
pub struct View {
    /// It is the keeper's.
    pub ghost is_keeper: { Bool },
    /// The keeper's: to how many ranks a node has come.
    pub ghost mark: { ℕ },
    /// The keeper's: the table is sealed.
    pub ghost sealed: { Bool },
    /// Its thread is counted as a worker.
    pub ghost is_enrolled: { Bool },
    /// The ranks whose slots are out with it, each with its node as it was taken.
    pub ghost outs: { List (ℕ × NodeState) },
}

impl Model for View {
    ghost also_owns = { λ _. ftrue };
}
