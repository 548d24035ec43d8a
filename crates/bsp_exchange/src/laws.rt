//! Laws of the exchange, over its definitions alone. Each is the contract of a function that does nothing.

ghost use Rattle.std.specs.Prelude.{◌≡◌, ◌≢◌, ◌≤◌, ◌^◌, ℕ, false, List, length, slice_get, All, Contains, IsPermutation, IsTrue};
ghost use Rattle.std.specs.List.{AllZip};
ghost use Rattle.node_memory.specs.Bytes.{byte_at};
ghost use Rattle.node_core.specs.Communication.{HasLimits};
ghost use Rattle.node_core.specs.Hart.{IsHart};
ghost use Rattle.node_core.specs.Node.{NodeState};
ghost use Rattle.bsp_exchange.specs.Exchange.{AreAtSync, exchanged};
ghost use Rattle.bsp_exchange.specs.Landings.{Landing, IsAtMost, KeysDoNotFall, HaveOwnKeys, AreSameLandings, landings_at, covers};
ghost use Rattle.bsp_exchange.specs.Landings.{landing_byte, landed_byte, memory_after};
ghost use Rattle.bsp_exchange.specs.Parts.{CanExchange, PartState, landed, landed_in_turn, parts_of};
ghost use Rattle.bsp_exchange.specs.Queues.{from_others, queue_after};
ghost use Rattle.bsp_exchange.specs.SameNode.{IsSameNode};
ghost use Rattle.bsp_exchange.specs.Traffic.{Transfer, transfers, between_ranks, messages_received, h_of, h_all_of, messages_of};

/// The landings in a memory come in the order of their keys, and each has a key of its own.
pub fn landings_come_in_the_order_of_their_keys()
    ensures order { (nodes : List NodeState) (rank : ℕ)
        → AreAtSync nodes → KeysDoNotFall (landings_at nodes rank) }
    ensures private { (nodes : List NodeState) (rank : ℕ)
        → AreAtSync nodes → HaveOwnKeys (landings_at nodes rank) }
{}

/// Of the landings that cover an address, the one with the greatest key counts. Where none does, the byte stays.
#[tactic(auto, using(crate::proofs::Latest::greatest_lands, crate::proofs::Latest::uncovered_stays))]
pub fn the_greatest_key_counts()
    ensures lands { (nodes : List NodeState) (rank addr : ℕ) (memory : List ℕ) (l : Landing)
        → AreAtSync nodes
        → Contains (landings_at nodes rank) l
        → IsTrue (covers addr l)
        → All (λ other. IsTrue (covers addr other) → IsAtMost other.key l.key) (landings_at nodes rank)
        → landed_byte (landings_at nodes rank) memory addr ≡ landing_byte addr l }
    ensures stays { (nodes : List NodeState) (rank addr : ℕ) (memory : List ℕ)
        → All (λ l. covers addr l ≡ false) (landings_at nodes rank)
        → landed_byte (landings_at nodes rank) memory addr ≡ byte_at memory addr }
{}

/// Any list of the same landings in which keys do not fall gives the same bytes.
#[tactic(auto, using(crate::proofs::Latest::same_byte, crate::proofs::Latest::same_memory))]
pub fn only_the_order_of_keys_matters()
    ensures byte { (nodes : List NodeState) (rank addr : ℕ) (memory : List ℕ) (others : List Landing)
        → AreAtSync nodes
        → AreSameLandings others (landings_at nodes rank)
        → KeysDoNotFall others
        → landed_byte others memory addr ≡ landed_byte (landings_at nodes rank) memory addr }
    ensures memory { (nodes : List NodeState) (rank : ℕ) (memory : List ℕ) (others : List Landing)
        → AreAtSync nodes
        → AreSameLandings others (landings_at nodes rank)
        → KeysDoNotFall others
        → memory_after others memory ≡ memory_after (landings_at nodes rank) memory }
{}

/// When each part of an exchange has landed in its node, the row is that after the exchange: if they land each at its place, and also
/// if they land one after another in whatever order. A node changes when its own part lands, and by no other.
#[tactic(auto, using(crate::proofs::PartOrder::landed_whole, crate::proofs::PartOrder::landed_in_any_order, crate::proofs::PartOrder::stays_apart))]
pub fn parts_land_in_any_order()
    ensures places { (nodes : List NodeState) → CanExchange nodes → landed (parts_of nodes) nodes ≡ exchanged nodes }
    ensures turns { (nodes : List NodeState) (parts : List PartState) → CanExchange nodes
        → IsPermutation (parts_of nodes) parts → landed_in_turn nodes parts ≡ exchanged nodes }
    ensures apart { (nodes : List NodeState) (parts : List PartState) (rank : ℕ) → All (λ part. part.rank ≢ rank) parts
        → slice_get (landed_in_turn nodes parts) rank ≡ slice_get nodes rank }
{}

/// Of the two readings of h the one that leaves out what nodes move to themselves is not more than the other. They agree where nothing
/// is moved so: where each transfer of a rank to itself has no bytes.
pub fn h_is_at_most_h_all()
    ensures most { (nodes : List NodeState) → h_of nodes ≤ h_all_of nodes }
    ensures same { (nodes : List NodeState)
        → All (λ (t : Transfer). t.from ≡ t.to → t.bytes ≡ 0) (transfers nodes)
        → h_of nodes ≡ h_all_of nodes }
{}

/// In a machine that is not large, with at most 1,024 nodes, an exchange moves less than the contracts of all machines say: no h is
/// more than 2^34, and no node receives more than 2^26 messages.
#[tactic(auto, using(crate::proofs::Bounds::traffic_bounded_standard))]
pub fn an_exchange_that_is_not_large_is_bounded()
    ensures { (nodes : List NodeState) → length nodes ≤ 1024 → All (λ (n : NodeState). IsHart n.hart) nodes
        → All (λ (n : NodeState). HasLimits false n.hart.communication) nodes
        → (h_of nodes ≤ h_all_of nodes) × (h_all_of nodes ≤ 2 ^ 34) × (messages_of nodes ≤ 2 ^ 26) }
{}

/// The messages that are counted for a rank are those in its queue after the exchange that others sent.
pub fn messages_are_those_of_the_queue()
    ensures { (nodes : List NodeState) (rank : ℕ)
        → messages_received (between_ranks (transfers nodes)) rank ≡ length (from_others rank (queue_after nodes rank)) }
{}

/// An exchange leaves as many nodes, in the same order, and changes of each only its memory's bytes, what it communicates and its
/// state.
#[tactic(auto, using(crate::proofs::Kept::all_same))]
pub fn a_turn_leaves_what_it_does_not_name()
    ensures count { (nodes : List NodeState) → length (exchanged nodes) ≡ length nodes }
    ensures each { (nodes : List NodeState) → AllZip IsSameNode nodes (exchanged nodes) }
{}
