//! Laws of what is reported, each the contract of a function that does nothing.

ghost use Rattle.std.specs.Prelude.{◌≡◌, ◌≢◌, ◌+◌, ℕ, List, Contains, None};
ghost use Rattle.contested_bytes.specs.declared.range.ContestedRange.{ContestedRange};
ghost use Rattle.machine_core.specs.Machine.{MachineState};
ghost use Rattle.machine_core.specs.Sound.{IsSoundMachine};
ghost use Rattle.machine_core.specs.Turn.{end_of, with_phases};
ghost use Rattle.settled_runs.specs.Orders.{IsSettledRun, MayLieAfter, RunsTo};
ghost use Rattle.contested_runs.specs.Lines.{header};
ghost use Rattle.contested_runs.specs.Runs.{AreContestedRanges, TellsContested, landings_of};

/// If nothing is told but the names of the columns, no superstep of the run has a contested byte, and the run comes to the same end under
/// every choice of orders that BSPlib allows, one for each superstep.
pub fn a_run_of_which_nothing_is_told_is_settled()
    ensures settled { (start : MachineState) (k : ℕ) → TellsContested start header → IsSettledRun k start }
    ensures same_end { (start end : MachineState)
        → TellsContested start header → RunsTo (start.settings.limit + 1) start end → end ≡ end_of start }
{}

/// If more is told than the names of the columns, two choices of orders come to two machines after some superstep. After the superstep of a
/// line, either byte that it names may lie at its address: each does so in some orders that BSPlib allows. Of the end of the run this would
/// be false, since a later superstep may write the byte once more.
pub fn what_is_told_makes_a_difference()
    ensures machines { (start : MachineState) (text : List ℕ)
        → IsSoundMachine start → TellsContested start text → text ≢ header
        → (k : ℕ) × (one two : MachineState) × RunsTo k start one × RunsTo k start two × (one ≢ two) }
    ensures bytes { (k : ℕ) (start m : MachineState) (found : List ContestedRange) (c : ContestedRange)
        → RunsTo k start m → IsSoundMachine m → m.outcome ≡ None
        → AreContestedRanges (landings_of (with_phases m)) found → Contains found c
        → MayLieAfter (k + 1) start c.rank c.addr c.first.byte × MayLieAfter (k + 1) start c.rank c.addr c.second.byte
        × (c.first.byte ≢ c.second.byte) }
{}
