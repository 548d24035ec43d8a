//! Laws of contested bytes, over the definitions alone. Each is the contract of a function that does nothing.

ghost use Rattle.std.specs.Prelude.{◌≡◌, ◌≢◌, ◌<◌, ◌↔◌, ◌∷◌, [], ℕ, List, length, replicate, Contains, IsTrue};
ghost use Rattle.node_memory.specs.Bytes.{byte_at};
ghost use Rattle.node_core.specs.Node.{NodeState};
ghost use Rattle.bsp_exchange.specs.Exchange.{exchanged};
ghost use Rattle.bsp_exchange.specs.Landings.{Landing, landing_byte, landings, memory_of};
ghost use Rattle.bsp_exchange.specs.Parts.{CanExchange};
ghost use Rattle.contested_bytes.specs.declared.range.ContestedRange.{ContestedRange};
ghost use Rattle.contested_bytes.specs.Contested.{reaches, IsContested, IsSettled, AreSettled, IsAllowedOrder, memory_in, exchanged_in};
ghost use Rattle.contested_bytes.specs.Contested.{MayLie};
ghost use Rattle.contested_bytes.specs.Examples.{put_by_0, alike_by_2, other_by_2, behind_by_2, get_by_1};
ghost use Rattle.contested_bytes.specs.Ranges.{IsContestedRange};

/// The exchange is that of one of the orders that BSPlib allows.
pub fn the_order_of_keys_is_allowed()
    ensures allowed { (nodes : List NodeState) → IsAllowedOrder (landings nodes) (landings nodes) }
    ensures same { (nodes : List NodeState) → exchanged nodes ≡ exchanged_in (landings nodes) nodes }
{}

/// If no byte is contested, every order that BSPlib allows leaves the same memories, and so the same nodes. A byte that is settled is the
/// same in each of them, whatever the others are.
pub fn settled_bytes_are_the_same_in_every_order()
    ensures byte { (all one two : List Landing) (rank addr : ℕ) (memory : List ℕ)
        → IsSettled all rank addr → IsAllowedOrder all one → IsAllowedOrder all two → addr < length memory
        → byte_at (memory_in one rank memory) addr ≡ byte_at (memory_in two rank memory) addr }
    ensures memory { (all one two : List Landing) (rank : ℕ) (memory : List ℕ)
        → AreSettled all → IsAllowedOrder all one → IsAllowedOrder all two
        → memory_in one rank memory ≡ memory_in two rank memory }
    ensures nodes { (nodes : List NodeState) (order : List Landing)
        → AreSettled (landings nodes) → IsAllowedOrder (landings nodes) order → exchanged_in order nodes ≡ exchanged nodes }
{}

/// A byte that is contested in an exchange that is made lies in the memory of one of its nodes.
pub fn contested_bytes_lie_in_memories()
    ensures { (nodes : List NodeState) (rank addr : ℕ)
        → CanExchange nodes → IsContested (landings nodes) rank addr
        → (rank < length nodes) × (addr < length (memory_of nodes rank)) }
{}

/// Each put, and each get, may be the one that counts: whichever brings a byte to an address, that byte lies there after the exchange
/// in one of the orders that BSPlib allows. So does each of the two bytes that a contested range names.
pub fn each_landing_may_be_the_last()
    ensures memory { (all : List Landing) (l : Landing) (rank addr : ℕ) (memory : List ℕ)
        → Contains all l → IsTrue (reaches rank addr l) → addr < length memory
        → (order : List Landing) × IsAllowedOrder all order × (byte_at (memory_in order rank memory) addr ≡ landing_byte addr l) }
    ensures nodes { (nodes : List NodeState) (l : Landing) (rank addr : ℕ)
        → CanExchange nodes → Contains (landings nodes) l → IsTrue (reaches rank addr l)
        → MayLie nodes rank addr (landing_byte addr l) }
    ensures range { (nodes : List NodeState) (c : ContestedRange)
        → CanExchange nodes → IsContestedRange (landings nodes) c
        → MayLie nodes c.rank c.addr c.first.byte × MayLie nodes c.rank c.addr c.second.byte × (c.first.byte ≢ c.second.byte) }
{}

/// If a byte of a memory is contested, two orders that BSPlib allows differ in it. So two different bytes may lie there after the exchange.
pub fn contested_bytes_are_not()
    ensures memory { (all : List Landing) (rank addr : ℕ) (memory : List ℕ)
        → IsContested all rank addr → addr < length memory
        → (one two : List Landing) × IsAllowedOrder all one × IsAllowedOrder all two
        × (byte_at (memory_in one rank memory) addr ≢ byte_at (memory_in two rank memory) addr) }
    ensures nodes { (nodes : List NodeState) (rank addr : ℕ)
        → CanExchange nodes → IsContested (landings nodes) rank addr
        → (one two : ℕ) × MayLie nodes rank addr one × MayLie nodes rank addr two × (one ≢ two) }
{}

/// Small examples. Two puts that overlap in a byte to which both bring a 4 have no contested byte, and neither have two that touch. If they
/// bring a 4 and a 9 to it, that byte is contested, and no other. A put and a get's answer are as two puts. BSPlib allows both orders of
/// two puts: in one of them the 9 lies there afterwards, and in the other the 4.
pub fn examples()
    ensures alike { AreSettled (put_by_0 ∷ alike_by_2 ∷ []) }
    ensures touching { AreSettled (put_by_0 ∷ behind_by_2 ∷ []) }
    ensures different { (rank addr : ℕ)
        → IsContested (put_by_0 ∷ other_by_2 ∷ []) rank addr ↔ ((rank ≡ 1) × (addr ≡ 19)) }
    ensures put_and_get { IsContested (put_by_0 ∷ get_by_1 ∷ []) 1 16 }
    ensures one_order { IsAllowedOrder (put_by_0 ∷ other_by_2 ∷ []) (put_by_0 ∷ other_by_2 ∷ [])
        × (byte_at (memory_in (put_by_0 ∷ other_by_2 ∷ []) 1 (replicate 32 0)) 19 ≡ 9) }
    ensures other_order { IsAllowedOrder (put_by_0 ∷ other_by_2 ∷ []) (other_by_2 ∷ put_by_0 ∷ [])
        × (byte_at (memory_in (other_by_2 ∷ put_by_0 ∷ []) 1 (replicate 32 0)) 19 ≡ 4) }
{}
