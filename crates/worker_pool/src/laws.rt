//! Laws of what the calls of the pool leave, each the contract of a function that does nothing.

ghost use Rattle.std.specs.Prelude.{◌≡◌};
ghost use Rattle.machine_core.specs.Machine.{MachineState};
ghost use Rattle.machine_core.specs.Sound.{IsSoundMachine};
ghost use Rattle.machine_core.specs.Turn.{with_phases, end_of};
ghost use Rattle.worker_pool.specs.Phases.{LeadsTo, LeadsWithoutTurn};

/// A refused call can be made again: a sound machine that some events lead to has the end that it had before, and if none of these is a
/// turn, its nodes' local parts end as they would have ended.
pub fn a_refused_run_ends_the_same()
    ensures run { (m n : MachineState) → IsSoundMachine m → LeadsTo m n → end_of n ≡ end_of m }
    ensures phase { (m n : MachineState)
        → IsSoundMachine m → LeadsWithoutTurn m n → with_phases n ≡ with_phases m }
{}
