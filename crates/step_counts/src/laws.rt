//! Laws that tie counts to ticks and costs, each the contract of a function that does nothing.

ghost use Rattle.std.specs.Prelude.{◌≡◌, ℕ, ◌-◌, ◌^◌, ◌<◌, List, length, map, max, sum_by, All, None};
ghost use Rattle.std.specs.List.{fold, range_with_len};
ghost use Rattle.node_memory.specs.Image.{Image};
ghost use Rattle.node_core.specs.Node.{NodeState, IsNode, phase};
ghost use Rattle.machine_core.specs.declared.settings.Settings.{Settings};
ghost use Rattle.machine_core.specs.Machine.{MachineState, fresh};
ghost use Rattle.machine_core.specs.Sound.{IsSoundMachine};
ghost use Rattle.machine_core.specs.Turn.{cost_row, superstep, with_phases};
ghost use Rattle.step_counts.specs.Counts.{addresses, count_in, AllCountsAreTicks, CountsAreTicks, HasBegun, HasWordPcs};

/// The counts of a rank in a superstep add up to its ticks in that superstep: its local part makes a step for each tick, and the counts of
/// all addresses, up to any bound that is above those of the steps, are together as many as the steps. An address of a step is a word,
/// below 2^32, if pc is one at first. It is one as a machine begins, since the entry of an image is one, and stays one from superstep to
/// superstep; so the counts of all words add up to the ticks.
///
/// [`run`](crate::run) ensures this sum for each superstep of its machine, under no condition.
pub fn the_counts_of_a_rank_add_up_to_its_ticks()
    ensures steps { (input : List ℕ) (n : NodeState)
        → IsNode n → length (addresses input n) ≡ (phase input n).ticks - n.ticks }
    ensures sum { (made : List ℕ) (bound : ℕ)
        → All (λ address. address < bound) made → sum_by (count_in made) (range_with_len 0 bound) ≡ length made }
    ensures words { (input : List ℕ) (n : NodeState)
        → n.hart.pc < 2 ^ 32 → All (λ address. address < 2 ^ 32) (addresses input n) }
    ensures ticks { (input : List ℕ) (n : NodeState) → IsNode n → n.hart.pc < 2 ^ 32 → CountsAreTicks input n }
    ensures start { (image : Image) (input : List ℕ) (settings : Settings)
        → image.entry < 2 ^ 32 → HasWordPcs (fresh image input settings) }
    ensures next { (m : MachineState) → HasWordPcs m → HasWordPcs (superstep m) }
    ensures machine { (m : MachineState) → IsSoundMachine m → HasWordPcs m → AllCountsAreTicks m }
{}

/// The greatest of these sums over all ranks is the w of the superstep, from its beginning. A machine is there at its start, and after each
/// superstep that did not end it.
pub fn the_greatest_sum_of_counts_is_w()
    ensures w { (m : MachineState) → IsSoundMachine m → HasBegun m
        → fold max 0 (map (λ (n : NodeState). length (addresses m.input n)) m.nodes) ≡ (cost_row (with_phases m)).w }
    ensures start { (image : Image) (input : List ℕ) (settings : Settings) → HasBegun (fresh image input settings) }
    ensures next { (m : MachineState) → (superstep m).outcome ≡ None → HasBegun (superstep m) }
{}
