//! Laws of the definitions, each the contract of a function that does nothing.

ghost use Rattle.std.specs.Prelude.{◌≡◌, ◌≢◌, ℕ, ◌+◌, ◌*◌, ◌%◌, ◌^◌, ◌≤◌, ◌==◌, ◌&&◌, nat_le, false, if◌then◌else◌, All, List, length, slice_get};
ghost use Rattle.std.specs.Prelude.{count_by, option_map, Option, None, Some, IsSome};
ghost use Rattle.std.specs.List.{AllZip};
ghost use Rattle.node_memory.specs.Image.{Image};
ghost use Rattle.node_core.specs.Communication.{HasLimits};
ghost use Rattle.node_core.specs.Node.{NodeState, local_steps};
ghost use Rattle.bsp_exchange.specs.Exchange.{AreAtSync};
ghost use Rattle.cost_ledger.specs.declared.LedgerText.TheVariants.{V1, V2};
ghost use Rattle.cost_ledger.specs.CostRow.{AreAtMostV1, IsBounded, total_in};
ghost use Rattle.machine_core.specs.declared.error.MachineError.TheVariants.{BadNodes, BadMemory, BadLimit};
ghost use Rattle.machine_core.specs.declared.event.Event.{Event};
ghost use Rattle.machine_core.specs.declared.settings.Settings.{Settings};
ghost use Rattle.machine_core.specs.Absent.{LacksAtomics};
ghost use Rattle.machine_core.specs.Clock.{HasClock};
ghost use Rattle.machine_core.specs.Machine.{MachineState, fresh, node_at_start, settings_fault};
ghost use Rattle.machine_core.specs.Turn.{was_stopped, has_ended, lowest, cost_row, turned, with_phases, superstep, end_of};
ghost use Rattle.machine_core.specs.Events.{event, after, some_runs, is_step_of, HaveStepped, MakeNoTurn, IsOnward};
ghost use Rattle.machine_core.specs.Walk.{walked, IsOnPhase};
ghost use Rattle.machine_core.specs.Sound.{AreInRange, IsSoundMachine};

/// A machine whose settings are in range is sound at its start, and events, turns and supersteps keep it so: each node at the place of its
/// rank, and sound itself; equally many areas in effect at each; ticks that fit the exchanges; an outcome only if no node runs; a row of
/// costs for each superstep that is over.
pub fn a_machine_stays_sound()
    ensures start { (image : Image) (input : List ℕ) (settings : Settings)
        → AreInRange settings → IsSoundMachine (fresh image input settings) }
    ensures one { (m : MachineState) (e : Event) → IsSoundMachine m → IsSoundMachine (event m e) }
    ensures several { (m : MachineState) (events : List Event)
        → IsSoundMachine m → IsSoundMachine (after m events) }
    ensures turn { (m : MachineState)
        → IsSoundMachine m → m.outcome ≡ None → some_runs m.nodes ≡ false → IsSoundMachine (turned m) }
    ensures whole { (m : MachineState) → IsSoundMachine m → IsSoundMachine (superstep m) }
    ensures last { (m : MachineState) → IsSoundMachine m → IsSoundMachine (end_of m) }
{}

/// Between turns each node goes its own way: after events that make no turn, the node of a rank is as it would be after as many local steps
/// by itself as there are steps of its rank among them (a node that does not run stays as it is), whatever the other events were and
/// however they were ordered. All else is as it was. And if each node has made some steps of its own, some events without a turn lead
/// there.
pub fn nodes_do_not_meet_between_turns()
    ensures steps { (m : MachineState) (events : List Event) (rank : ℕ) → MakeNoTurn m events
        → slice_get (after m events).nodes rank
        ≡ option_map (local_steps m.input (count_by (is_step_of rank) events)) (slice_get m.nodes rank) }
    ensures others { (m : MachineState) (events : List Event) → MakeNoTurn m events
        → after m events ≡ record m { nodes = (after m events).nodes } }
    ensures reached { (m : MachineState) (nodes : List NodeState)
        → HaveStepped m.input m.nodes nodes
        → (events : List Event) × MakeNoTurn m events × (after m events ≡ record m { nodes = nodes }) }
{}

/// The local parts of a superstep come to an end: no node runs afterwards, and a sound machine is still sound. If some of their steps were
/// made before, whichever and in whatever order, they end as they would have: local parts that were broken off can be taken up again.
pub fn local_parts_can_be_taken_up_again()
    ensures sound { (m : MachineState) → IsSoundMachine m → IsSoundMachine (with_phases m) }
    ensures stopped { (m : MachineState) → IsSoundMachine m → some_runs (with_phases m).nodes ≡ false }
    ensures again { (m : MachineState) (events : List Event)
        → IsSoundMachine m → MakeNoTurn m events → with_phases (after m events) ≡ with_phases m }
{}

/// Nothing that was done is undone: events take back no tick, no output, no row of costs and no exchange, and leave settings and
/// input as they are.
pub fn nothing_is_undone()
    ensures { (m : MachineState) (events : List Event) → IsOnward m (after m events) }
{}

/// The order of two steps of different ranks does not matter.
pub fn steps_of_two_nodes_commute()
    ensures { (m : MachineState) (r s : ℕ) → r ≢ s
        → event (event m (Event.Step r)) (Event.Step s) ≡ event (event m (Event.Step s)) (Event.Step r) }
{}

/// Order does not matter: whatever events were made, and in whatever order, a sound machine has the end that it had before. If it has its
/// outcome, it is at that end.
pub fn every_order_has_the_same_end()
    ensures same { (m : MachineState) (events : List Event)
        → IsSoundMachine m → end_of (after m events) ≡ end_of m }
    ensures there { (m : MachineState) (events : List Event)
        → IsSoundMachine m → IsSome (after m events).outcome → after m events ≡ end_of m }
{}

/// A run that was broken off can be taken up again. After some events of its walk a machine is one that events lead to, and has the end
/// that it had before; if none of them was a turn, its nodes' local parts end as they would have ended. After the outcome there are no
/// events left.
pub fn a_refused_run_resumes()
    ensures reached { (m : MachineState) (k : ℕ)
        → (events : List Event) × (walked k m ≡ after m events) }
    ensures same_end { (m : MachineState) (k : ℕ) → IsSoundMachine m → end_of (walked k m) ≡ end_of m }
    ensures same_phases { (m n : MachineState)
        → IsSoundMachine m → IsOnPhase m n → with_phases n ≡ with_phases m }
    ensures over { (m : MachineState) (k : ℕ) → IsSome m.outcome → walked k m ≡ m }
{}

/// A sound machine has an end: `limit + 1` supersteps give it its outcome, and so does some list of events: at most `limit` steps
/// for each node, and a turn for each of those supersteps.
pub fn every_machine_ends()
    ensures supersteps { (m : MachineState) → IsSoundMachine m → IsSome (end_of m).outcome }
    ensures events { (m : MachineState) → IsSoundMachine m
        → (events : List Event)
        × (length events ≤ m.settings.nodes * m.settings.limit + m.settings.limit + 1)
        × IsSome (after m events).outcome }
{}

/// Whatever events were made, before the outcome each clock counts on from what the ledger's rows cost at the prices of the settings, and
/// from the ticks that its own node had made when the superstep began. Without prices there are no clocks.
pub fn clocks_count_on_from_what_is_over()
    ensures { (image : Image) (input : List ℕ) (settings : Settings) (events : List Event) → AreInRange settings
        → let m = after (fresh image input settings) events in
        m.outcome ≡ None → AllZip (HasClock settings.clock m.ledger) m.nodes m.started }
{}

/// Unless they are asked for, no node has the instructions of A: whatever events were made, each of them is illegal on each node.
pub fn instructions_of_a_are_illegal_unless_they_are_asked_for()
    ensures { (image : Image) (input : List ℕ) (settings : Settings) (events : List Event) → AreInRange settings
        → settings.atomic ≡ false → All (λ n. LacksAtomics n.hart) (after (fresh image input settings) events).nodes }
{}

/// Supersteps are few and their costs small: a sound machine has made at most `limit` exchanges, has a row of costs for at most
/// one superstep more, and the row that a turn would add keeps to the bounds under which totals are exact.
pub fn costs_are_bounded()
    ensures exchanges { (m : MachineState) → IsSoundMachine m → m.exchanges ≤ m.settings.limit }
    ensures rows { (m : MachineState) → IsSoundMachine m → length m.ledger ≤ m.settings.limit + 1 }
    ensures row { (m : MachineState) → IsSoundMachine m → IsBounded (cost_row m) }
{}

/// No row of a run's ledger has an h that is more than in the ledger's first version, whatever events were made: each row that a turn
/// adds is so, and a ledger stays so. That is what the law of totals asks for, so no total of a run is more than in the first version.
pub fn no_total_is_above_the_first_version()
    ensures row { (m : MachineState) → (cost_row m).h ≤ (cost_row m).h_all }
    ensures several { (m : MachineState) (events : List Event)
        → AreAtMostV1 m.ledger → AreAtMostV1 (after m events).ledger }
    ensures last { (m : MachineState) → AreAtMostV1 m.ledger → AreAtMostV1 (end_of m).ledger }
    ensures run { (image : Image) (input : List ℕ) (settings : Settings) (events : List Event)
        → AreAtMostV1 (after (fresh image input settings) events).ledger }
    ensures total { (image : Image) (input : List ℕ) (settings : Settings) (events : List Event) (g l : ℕ)
        → total_in V2 g l (after (fresh image input settings) events).ledger
        ≤ total_in V1 g l (after (fresh image input settings) events).ledger }
{}

/// A machine that is not large has 1,024 nodes at most, each with at most 2^24 bytes of memory, and its settings have the fault that they
/// had before there were large machines. Each of its nodes has at its start the limits of a superstep that are not those of a large one;
/// a sound machine keeps them.
pub fn a_machine_is_not_large_unless_it_is_asked_for()
    ensures fault { (s : Settings) → s.large ≡ false → settings_fault s
        ≡ (if nat_le 1 s.nodes && nat_le s.nodes 1024 then
        (if nat_le 4096 s.memory && nat_le s.memory (2 ^ 24) && s.memory % 4096 == 0 then
        (if nat_le 1 s.limit && nat_le s.limit (2 ^ 40) then None else Some BadLimit)
        else Some BadMemory)
        else Some BadNodes) }
    ensures start { (image : Image) (s : Settings) (rank : ℕ) → s.large ≡ false
        → HasLimits false (node_at_start image s rank).hart.communication }
    ensures kept { (m : MachineState) → IsSoundMachine m → m.settings.large ≡ false
        → All (λ n. HasLimits false n.hart.communication) m.nodes }
{}

/// What a turn of a machine that is not large adds to the ledger keeps to the bounds of before there were large ones.
pub fn a_turn_that_is_not_large_costs_less()
    ensures { (m : MachineState) → IsSoundMachine m → m.settings.large ≡ false
        → ((cost_row m).h_all ≤ 2 ^ 34) × ((cost_row m).messages ≤ 2 ^ 26) }
{}

/// Nodes none of which runs, was stopped or ended are at sync, so that the exchange can be asked for: they are at the places of their
/// ranks, all of them wait, and they have equally many areas in effect.
pub fn waiting_nodes_are_at_sync()
    ensures { (m : MachineState)
        → IsSoundMachine m → some_runs m.nodes ≡ false
        → lowest was_stopped m.nodes ≡ None → lowest has_ended m.nodes ≡ None → AreAtSync m.nodes }
{}
