//! Laws that tie a profile to the costs of the same run, each the contract of a function that does nothing.

ghost use Rattle.std.specs.Prelude.{◌≡◌, ℕ, ◌+◌, max, map, true};
ghost use Rattle.std.specs.List.{fold};
ghost use Rattle.node_core.specs.Node.{NodeState};
ghost use Rattle.bsp_exchange.specs.Traffic.{transfers, bytes_sent, bytes_received};
ghost use Rattle.machine_core.specs.Machine.{MachineState};
ghost use Rattle.machine_core.specs.Sound.{IsSoundMachine};
ghost use Rattle.machine_core.specs.Turn.{cost_row, makes_exchange};
ghost use Rattle.bsp_profile.specs.declared.row.Row.{Row};
ghost use Rattle.bsp_profile.specs.Moves.{rows, row_of};

/// The greatest of a superstep's ticks is its w.
pub fn the_greatest_ticks_are_w()
    ensures { (m : MachineState)
        → fold max 0 (map (λ (r : Row). r.ticks) (rows m)) ≡ (cost_row m).w }
{}

/// What a rank sends to others and what it moves to itself are together all that it sends in the exchange; likewise what it
/// receives.
pub fn what_a_rank_moves_is_in_three_parts()
    ensures sent { (m : MachineState) (at : NodeState × ℕ)
        → IsSoundMachine m → makes_exchange m.nodes ≡ true
        → (row_of m at).sent + (row_of m at).kept ≡ bytes_sent (transfers m.nodes) at.0.hart.rank }
    ensures received { (m : MachineState) (at : NodeState × ℕ)
        → IsSoundMachine m → makes_exchange m.nodes ≡ true
        → (row_of m at).received + (row_of m at).kept ≡ bytes_received (transfers m.nodes) at.0.hart.rank }
{}

/// The greatest, over all ranks, of the larger of what a rank sends to others and what it receives from others is the h of the superstep;
/// if what it moves to itself counts as both, it is `h_all`.
pub fn the_greatest_traffic_is_h()
    ensures h { (m : MachineState) → IsSoundMachine m
        → fold max 0 (map (λ (r : Row). max r.sent r.received) (rows m)) ≡ (cost_row m).h }
    ensures h_all { (m : MachineState) → IsSoundMachine m
        → fold max 0 (map (λ (r : Row). max (r.sent + r.kept) (r.received + r.kept)) (rows m)) ≡ (cost_row m).h_all }
{}

/// The greatest of the messages that a rank receives from others is that of the superstep's cost.
pub fn the_most_messages_are_those_of_the_cost()
    ensures { (m : MachineState) → IsSoundMachine m
        → fold max 0 (map (λ (r : Row). r.messages) (rows m)) ≡ (cost_row m).messages }
{}
