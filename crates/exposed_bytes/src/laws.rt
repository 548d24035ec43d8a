//! Laws of exposed bytes, over the definitions alone. Each is the contract of a function that does nothing.

ghost use Rattle.std.specs.Prelude.{◌≡◌, ◌≤◌, ◌<◌, ◌↔◌, ◌∷◌, [], ℕ, List, Contains, IsPermutation, IsTrue};
ghost use Rattle.exposed_bytes.specs.declared.call.Call.{Call};
ghost use Rattle.exposed_bytes.specs.declared.exposure.Exposure.{Exposure};
ghost use Rattle.exposed_bytes.specs.Courses.{MayReadFirst, MayWriteFirst};
ghost use Rattle.exposed_bytes.specs.Examples.{get_by_0, put_by_2, hpget_by_0, moved_by_0, kept_by_0, put_by_0, later_by_0};
ghost use Rattle.exposed_bytes.specs.Examples.{send_by_0, put_to_0};
ghost use Rattle.exposed_bytes.specs.Exposed.{IsExposed, Reads, Writes, is_open, is_unbuffered};
ghost use Rattle.exposed_bytes.specs.Found.{AreExposures, HavePlacesOfTheirOwn, IsIn};

/// It is open which comes first, that a call reads a byte or that one writes it, exactly if BSPlib allows both orders: a course of the
/// superstep in which the one is first, and another in which the other is.
pub fn open_bytes_may_come_in_both_orders()
    ensures { (calls : List Call) (reader writer : Call) (rank addr : ℕ)
        → Contains calls reader → Contains calls writer → Reads rank addr reader → Writes rank addr writer
        → IsTrue (is_open reader writer) ↔ (MayReadFirst calls addr reader writer × MayWriteFirst calls addr reader writer) }
{}

/// In which order the calls of a superstep are listed does not matter.
pub fn an_order_of_calls_does_not_matter()
    ensures { (calls others : List Call) (rank addr : ℕ)
        → IsPermutation calls others → IsExposed calls rank addr → IsExposed others rank addr }
{}

/// Without an unbuffered call nothing is exposed.
pub fn unbuffered_calls_alone_expose()
    ensures { (calls : List Call) (rank addr : ℕ)
        → IsExposed calls rank addr → (c : Call) × Contains calls c × IsTrue (is_unbuffered c.sort) }
{}

/// What is told are the exposed bytes: each byte of a range is one, and if no range is told there is none. If each call has a place of its
/// own, all of them are in ranges.
pub fn what_is_told_is_exposed()
    ensures exposed { (calls : List Call) (found : List Exposure) (rank addr : ℕ)
        → AreExposures calls found → IsIn found rank addr → IsExposed calls rank addr }
    ensures none { (calls : List Call) (rank addr : ℕ) → AreExposures calls [] → IsExposed calls rank addr → ⊥ }
    ensures all { (calls : List Call) (found : List Exposure) (rank addr : ℕ)
        → HavePlacesOfTheirOwn calls → AreExposures calls found → IsExposed calls rank addr → IsIn found rank addr }
{}

/// Small examples, of four bytes each. What a get reads and a put writes is not exposed; what an unbuffered get reads and a put writes is.
/// An unbuffered put of a rank to itself, a byte further, exposes the three bytes that it reads and writes, and one in place exposes none.
/// What a put has read at an earlier call of its rank is not exposed by an unbuffered get of that rank; what a put reads at a later call
/// is, and so is what a message reads while another rank's unbuffered put writes it.
pub fn examples()
    ensures get_and_put { (rank addr : ℕ) → IsExposed (get_by_0 ∷ put_by_2 ∷ []) rank addr → ⊥ }
    ensures hpget_and_put { IsExposed (hpget_by_0 ∷ put_by_2 ∷ []) 1 3 }
    ensures a_byte_further { (rank addr : ℕ)
        → IsExposed (moved_by_0 ∷ []) rank addr ↔ ((rank ≡ 0) × (1 ≤ addr) × (addr < 4)) }
    ensures in_place { (rank addr : ℕ) → IsExposed (kept_by_0 ∷ []) rank addr → ⊥ }
    ensures earlier_put { (rank addr : ℕ) → IsExposed (put_by_0 ∷ hpget_by_0 ∷ []) rank addr → ⊥ }
    ensures later_put { IsExposed (later_by_0 ∷ hpget_by_0 ∷ []) 0 3 }
    ensures message { IsExposed (send_by_0 ∷ put_to_0 ∷ []) 0 3 }
{}
