//! Laws of the definitions that the contracts of [`Slots`](crate::Slots) cite. Each function does nothing; its contract
//! is the law.
ghost use Rattle.std.specs.Prelude.{◌≡◌, ◌≢◌, ◌≤◌, ◌^◌, ℕ, Bool, ◌∷◌, ◌++◌, [], List, length, remove, All, MatchOption, false, Some};
ghost use Rattle.bsp_slots.specs.declared.area.Area.{Area};
ghost use Rattle.bsp_slots.specs.declared.change.Change.{Change};
ghost use Rattle.bsp_slots.specs.Area.{last_position, IsLastEntry};
ghost use Rattle.bsp_slots.specs.Registrations.{Registrations, no_registrations, registrations_after, next_list, is_full, pushed, popped};
ghost use Rattle.bsp_slots.specs.Registrations.{turned, HasSameShape, IsSound, max_entries, max_pushes};

/// The position that is found is that of the last entry of the address, and if none is found no entry has it.
pub fn the_last_entry_is_found()
    ensures { (entries : List Area) (addr : ℕ)
        → MatchOption (last_position entries addr)
        (All (λ area. area.addr ≢ addr) entries)
        (IsLastEntry entries addr) }
{}

/// A push appends to the next list, a pop removes the entry that it names from it, and each superstep begins with a next
/// list that is the list in effect.
pub fn the_next_list_follows()
    ensures push { (s : Registrations) (area : Area)
        → next_list (pushed s area) ≡ next_list s ++ area ∷ [] }
    ensures pop { (s : Registrations) (addr slot : ℕ) → last_position (next_list s) addr ≡ Some slot
        → next_list (popped s addr slot) ≡ remove (next_list s) slot }
    ensures turn { (s : Registrations) → next_list (turned s) ≡ (turned s).in_effect }
{}

/// Two sequences of pushes and pops, one after the other, are the second replayed over what the first leaves.
pub fn replays_go_on()
    ensures { (entries : List Area) (changes more : List Change)
        → registrations_after entries (changes ++ more)
        ≡ registrations_after (registrations_after entries changes) more }
{}

/// Soundness holds at the start, and each push that is not refused, each pop of a registered address and each turn
/// keeps it.
pub fn soundness_is_kept()
    ensures start { (large : Bool) → IsSound (no_registrations large) }
    ensures push { (s : Registrations) (area : Area)
        → IsSound s → is_full s ≡ false → IsSound (pushed s area) }
    ensures pop { (s : Registrations) (addr slot : ℕ)
        → IsSound s → last_position (next_list s) addr ≡ Some slot → IsSound (popped s addr slot) }
    ensures turn { (s : Registrations) → IsSound s → IsSound (turned s) }
{}

/// To have made the same sequence of pushes and pops is an equivalence.
pub fn same_shape_is_an_equivalence()
    ensures reflexive { (s : Registrations) → HasSameShape s s }
    ensures symmetric { (s t : Registrations) → HasSameShape s t → HasSameShape t s }
    ensures transitive { (s t u : Registrations)
        → HasSameShape s t → HasSameShape t u → HasSameShape s u }
{}

/// If the lists in effect are equally long and the same sequence of pushes and pops was made, the next lists are equally long.
pub fn same_shape_keeps_lengths_equal()
    ensures { (s t : Registrations) → IsSound s → IsSound t → HasSameShape s t
        → length s.in_effect ≡ length t.in_effect → length (next_list s) ≡ length (next_list t) }
{}

/// A machine that is not large has 1,024 entries and 65,536 pushes in a superstep for a node, and no machine has more than 65,536 and 2^24.
pub fn registrations_have_these_limits()
    ensures standard_entries { max_entries false ≡ 1024 }
    ensures standard_pushes { max_pushes false ≡ 65536 }
    ensures entries { (large : Bool) → max_entries large ≤ 65536 }
    ensures pushes { (large : Bool) → max_pushes large ≤ 2 ^ 24 }
{}
