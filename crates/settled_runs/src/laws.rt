//! Laws of runs, over the definitions alone. Each is the contract of a function that does nothing.

ghost use Rattle.std.specs.Prelude.{◌≡◌, ◌≢◌, ◌↔◌, ℕ, ◌+◌, ◌<◌, ◌≤◌, List};
ghost use Rattle.std.specs.Fn.{iterate};
ghost use Rattle.bsp_exchange.specs.Landings.{Landing};
ghost use Rattle.contested_bytes.specs.Contested.{IsAllowedOrder};
ghost use Rattle.machine_core.specs.Machine.{MachineState};
ghost use Rattle.machine_core.specs.Sound.{IsSoundMachine};
ghost use Rattle.machine_core.specs.Turn.{superstep, end_of};
ghost use Rattle.settled_runs.specs.Examples.{two_puts};
ghost use Rattle.settled_runs.specs.Orders.{superstep_in, next_landings, IsContestedNext, IsSettledRun, MayLieAfter, RunsTo};

/// A run of so many supersteps none of which has a contested byte comes to the same machine under every choice of orders, one for each
/// superstep: to that of the machine's own order. So it does after each number of supersteps before.
pub fn settled_runs_are_the_same_in_every_order()
    ensures run { (k : ℕ) (m n : MachineState) → IsSettledRun k m → RunsTo k m n → n ≡ iterate superstep k m }
    ensures last { (m n : MachineState)
        → IsSettledRun (m.settings.limit + 1) m → RunsTo (m.settings.limit + 1) m n → n ≡ end_of m }
{}

/// The supersteps of a machine are a run of one of these choices.
pub fn a_run_in_the_order_of_keys_is_allowed()
    ensures { (k : ℕ) (m : MachineState) → RunsTo k m (iterate superstep k m) }
{}

/// Each order that BSPlib allows is a choice, in each superstep, whatever was chosen in the supersteps before.
pub fn each_order_is_a_choice()
    ensures start { (m : MachineState) → RunsTo 0 m m }
    ensures more { (k : ℕ) (m n : MachineState) (order : List Landing)
        → RunsTo k m n → IsAllowedOrder (next_landings n) order → RunsTo (k + 1) m (superstep_in order n) }
{}

/// A byte that is contested in a superstep lies in the memory of a rank. After that superstep two choices of orders have come to two
/// machines, which differ in this byte. This is said of the machine after the superstep, and of the end of the run it would be false:
/// a later superstep may write the byte once more before anything reads it.
pub fn a_contested_byte_makes_two_machines()
    ensures inside { (m : MachineState) (rank addr : ℕ)
        → IsSoundMachine m → IsContestedNext m rank addr → (rank < m.settings.nodes) × (addr < m.settings.memory) }
    ensures bytes { (k : ℕ) (m n : MachineState) (rank addr : ℕ)
        → RunsTo k m n → IsSoundMachine n → IsContestedNext n rank addr
        → (one two : ℕ) × MayLieAfter (k + 1) m rank addr one × MayLieAfter (k + 1) m rank addr two × (one ≢ two) }
    ensures machines { (k : ℕ) (m n : MachineState) (rank addr : ℕ)
        → RunsTo k m n → IsSoundMachine n → IsContestedNext n rank addr
        → (one two : MachineState) × RunsTo (k + 1) m one × RunsTo (k + 1) m two × (one ≢ two) }
{}

/// So a run of so many supersteps is settled exactly if, after each number of them, every choice of orders has come to the same machine.
pub fn only_settled_runs_are_the_same_in_every_order()
    ensures { (k : ℕ) (m : MachineState) → IsSoundMachine m
        → IsSettledRun k m ↔ ((j : ℕ) (n : MachineState) → j ≤ k → RunsTo j m n → n ≡ iterate superstep j m) }
{}

/// An example. Two nodes put different bytes to one address, where after the superstep the one may lie, and the other.
pub fn two_puts_make_two_machines()
    ensures sound { IsSoundMachine two_puts }
    ensures contested { IsContestedNext two_puts 1 16 }
    ensures one { MayLieAfter 1 two_puts 1 16 4 }
    ensures other { MayLieAfter 1 two_puts 1 16 9 }
{}
