//! Laws of the definitions, each the contract of a function that does nothing.

ghost use Rattle.std.specs.Prelude.{◌≡◌, ℕ, ◌+◌, true, false, List};
ghost use Rattle.node_core.specs.Node.{NodeState, IsNode, IsSoundNode, IsLater, is_running, local_step, local_steps, phase};

/// Steps of a sound node leave a sound node: ticks within their limit, below it where the node runs and above 0 where it
/// does not; registrations, requests and output within their limits; areas and the destinations of gets in the memory;
/// requests that name ranks and places of the list in effect.
pub fn steps_keep_a_node_sound()
    ensures step { (input : List ℕ) (s : NodeState) → IsSoundNode s → IsSoundNode (local_step input s) }
    ensures steps { (input : List ℕ) (n : ℕ) (s : NodeState)
        → IsSoundNode s → IsSoundNode (local_steps input n s) }
{}

/// Steps keep a node's rank, the number of nodes, the size of its memory, its limit, the areas in effect and the size of
/// tags; they add pushes, pops, requests and output at the end, and take back no tick. A step of a running node is one tick.
pub fn steps_keep_what_a_node_is()
    ensures step { (input : List ℕ) (s : NodeState) → IsLater s (local_step input s) }
    ensures steps { (input : List ℕ) (n : ℕ) (s : NodeState) → IsLater s (local_steps input n s) }
    ensures tick { (input : List ℕ) (s : NodeState)
        → is_running s.state ≡ true → (local_step input s).ticks ≡ s.ticks + 1 }
{}

/// A node that does not run stays as it is.
pub fn a_stopped_node_stays()
    ensures { (input : List ℕ) (n : ℕ) (s : NodeState)
        → is_running s.state ≡ false → local_steps input n s ≡ s }
{}

/// So many steps and then so many more are as many as both together.
pub fn steps_add_up()
    ensures none { (input : List ℕ) (s : NodeState) → local_steps input 0 s ≡ s }
    ensures one { (input : List ℕ) (s : NodeState) → local_steps input 1 s ≡ local_step input s }
    ensures more { (input : List ℕ) (m n : ℕ) (s : NodeState)
        → local_steps input (m + n) s ≡ local_steps input n (local_steps input m s) }
{}

/// A node's local part of a superstep, which is as many steps as it has ticks left, comes to an end: afterwards the node
/// does not run, and another local part changes nothing.
pub fn a_phase_ends()
    ensures stopped { (input : List ℕ) (s : NodeState)
        → IsNode s → is_running (phase input s).state ≡ false }
    ensures again { (input : List ℕ) (s : NodeState)
        → IsNode s → phase input (phase input s) ≡ phase input s }
{}
