//! The table and its keeper, which fills it, and takes the nodes out once all workers have retired.

ghost use Rattle.std.specs.Prelude.{◌≡◌, ℕ, ◌+◌, ◌<◌, ◌≤◌, [], ◌∷◌, ◌++◌, length, map, replicate, true, vec_len, vec_capacity, Some, IfOk};
ghost use Rattle.core.specs.Mem.Slots.{slots_items, slots_len, IsFull};
ghost use mathlib.Core.Option.{some};
ghost use lib.ListN.{get_elem?};
ghost use Rattle.claim_table.specs.Claims.{HasStepped};
ghost use Rattle.claim_table.specs.ClaimSteps.{keeper_view};
ghost use Rattle.claim_table.specs.Start.{start_of};

use crate::place::Place;
use crate::rule::{ClaimRule, PhaseStart};
use crate::steps::{Reserve, Return, Seal};
use crate::view::View;
use crate::worker::{ClaimSeat, EMPTY, HOME_AND_RUNS, HOME_AND_STOPPED, OUT, SharedClaims};
use atomic_table::{Closed, Table};
use node_core::Node;
use std::alloc::{AllocError, Allocator};
use std::snapshot::Snapshot;
use std::sync::Wait;

/// The count of a table that is sealed.
const SEALED: u64 = 1 << 63;

/// A table that is full: each rank's node has come to its slot.
pub struct ClaimTable<'p, A: Allocator> {
    table: Table<Option<Node<A>>, View, PhaseStart<'p, A>, ClaimRule, A>,
    /// The row's own vector, with nothing in it meanwhile.
    room: Vec<Node<A>, A>,
    input: &'p [u8],
    ranks: usize,
    ghost sized: { (table.shared.table_id.words ≡ ranks + 1) × (table.shared.table_id.slots ≡ ranks) },
    ghost reads: { input.now ≡ table.shared.key.input.now },
    ghost whole: { length table.shared.key.row.value.items ≡ ranks },
    ghost roomy: { (room.items ≡ []) × (ranks ≤ vec_capacity room) },
}

/// Its keeper, who has filled it and alone can seal it.
pub struct Keeper<A: Allocator> {
    seat: ClaimSeat<A>,
}

impl<'p, A: Allocator + Copy> ClaimTable<'p, A> {
    ghost use Rattle.std.specs.Prelude.{IfErr};
    ghost use Rattle.std.specs.List.{AllZip};
    ghost use Rattle.node_core.specs.Node.{PreparedNode, local_steps};

    /// A table to which each node of the row has come. The table is made before a node moves.
    ///
    /// # Errors
    /// If memory is refused. The row is as it was then.
    pub fn open(
        input: &'p [u8],
        mut row: Vec<Node<A>, A>,
    ) -> Result<(ClaimTable<'p, A>, Keeper<A>), Vec<Node<A>, A>>
        ensures ok { IfOk result (λ t. (t.0.table.shared.key.row.value.items ≡ row.items) × (t.0.input ≡ input.entry)
            × (t.0.ranks ≡ vec_len row) × (vec_capacity t.0.room ≡ vec_capacity row)) }
        ensures keeper { IfOk result (λ t. (t.1.seat.table_id ≡ t.0.table.shared.table_id)
            × (t.1.seat.me ≡ (keeper_view t.0.ranks, []))) }
        ensures err { IfErr result (λ r. r ≡ row) }
    {
        let ranks = row.len();
        let alloc = *row.allocator();
        let Ok(words) = first_words(alloc, ranks) else {
            return Err(row);
        };
        let about = PhaseStart {
            row: Snapshot::of(&row),
            input,
        };
        let Ok((table, mut seat)) = Table::vacant(alloc, words.as_slice(), ranks, &about) else {
            return Err(row);
        };
        fill_all(&table.shared, &mut seat, &mut row);
        let opened = ClaimTable {
            table,
            room: row,
            input,
            ranks,
        };
        Ok((opened, Keeper { seat }))
    }

    /// The place of the first worker, from which those of others are made.
    pub fn place(&self, keeper: &mut Keeper<A>) -> Place<'_, 'p, A>
        requires seated { keeper.old.seat.table_id ≡ self.now.table.shared.table_id }
        ensures same { (keeper.new.seat.table_id ≡ keeper.old.seat.table_id) × (keeper.new.seat.me ≡ keeper.old.seat.me) }
        ensures at { (result.worker.shared.now ≡ self.now.table.shared) × (result.worker.input ≡ self.now.input)
            × (result.worker.ranks ≡ self.now.ranks) }
    {
        Place::first(&self.table.shared, &mut keeper.seat, self.input, self.ranks)
    }

    /// Waits until no worker is counted, and gives the row back: each node after no or some steps of its own.
    pub fn close<R: Wait>(self, rt: &R, keeper: Keeper<A>) -> Vec<Node<A>, A>
        requires seated { (keeper.seat.table_id ≡ self.table.shared.table_id)
            × (keeper.seat.me ≡ (keeper_view self.ranks, [])) }
        ensures stepped { AllZip (λ (o n : PreparedNode). (k : ℕ) × (n.node ≡ local_steps self.entry.input.now k o.node))
            self.entry.table.shared.key.row.value.items result.items }
        ensures room { vec_capacity result ≡ vec_capacity self.entry.room }
    {
        let ClaimTable {
            table,
            room,
            input: _,
            ranks,
        } = self;
        let Keeper { mut seat } = keeper;
        seal(rt, &table.shared, &mut seat, ranks);
        take_out(table.close_with(seat), room)
    }
}

/// The words of a table to which no node has come yet.
fn first_words<A: Allocator>(alloc: A, ranks: usize) -> Result<Vec<u64, A>, AllocError>
    ensures { IfOk result (λ words. words.items ≡ replicate ranks 3 ++ 0 ∷ []) }
{
    let mut words = vec![in alloc; EMPTY; ranks]?;
    words.push(0)?;
    Ok(words)
}

/// Takes each node of the row to its slot.
fn fill_all<'p, A: Allocator + Copy>(
    shared: &SharedClaims<'p, A>,
    seat: &mut ClaimSeat<A>,
    row: &mut Vec<Node<A>, A>,
)
    requires sized { (shared.now.table_id.words ≡ vec_len row.old + 1) × (shared.now.table_id.slots ≡ vec_len row.old) }
    requires seated { (seat.old.table_id ≡ shared.now.table_id) × (seat.old.me ≡ (keeper_view 0, [])) }
    requires whole { row.old.items ≡ shared.now.key.row.value.items }
    ensures seated { (seat.new.table_id ≡ shared.now.table_id) × (seat.new.me ≡ (keeper_view (vec_len row.old), [])) }
    ensures room { (row.new.items ≡ []) × (vec_capacity row.new ≡ vec_capacity row.old) }
{
    row.reverse();
    let mut rank = 0;
    while let Some(node) = row.pop() {
        fill(shared, seat, rank, node);
        rank += 1;
    }
}

/// Takes the next node to its slot.
fn fill<'p, A: Allocator + Copy>(
    shared: &SharedClaims<'p, A>,
    seat: &mut ClaimSeat<A>,
    rank: usize,
    node: Node<A>,
)
    requires sized { (rank < shared.now.table_id.slots) × (shared.now.table_id.words ≡ shared.now.table_id.slots + 1) }
    requires seated { (seat.old.table_id ≡ shared.now.table_id) × (seat.old.me ≡ (keeper_view rank, [])) }
    requires stepped { HasStepped (start_of shared.now.key) rank node.node }
    ensures seated { (seat.new.table_id ≡ shared.now.table_id) × (seat.new.me ≡ (keeper_view (rank + 1), [])) }
{
    let word = if node.state().is_running() {
        HOME_AND_RUNS
    } else {
        HOME_AND_STOPPED
    };
    let node = Some(node);
    shared.compare_exchange_with::<Reserve>(seat, rank, EMPTY, OUT, &node);
    shared.exchange(seat, rank, node);
    shared.store::<Return>(seat, rank, word);
}

/// Waits until no worker is counted, and seals the table.
fn seal<'p, R: Wait, A: Allocator + Copy>(
    rt: &R,
    shared: &SharedClaims<'p, A>,
    seat: &mut ClaimSeat<A>,
    ranks: usize,
)
    requires sized { (shared.now.table_id.slots ≡ ranks) × (shared.now.table_id.words ≡ ranks + 1) }
    requires seated { (seat.old.table_id ≡ shared.now.table_id) × (seat.old.me ≡ (keeper_view ranks, [])) }
    ensures seated { (seat.new.table_id ≡ shared.now.table_id)
        × (seat.new.me ≡ (record (keeper_view ranks) { sealed = true }, [])) }
{
    for _ in rt.forever() {
        if shared.compare_exchange::<Seal>(seat, ranks, 0, SEALED) == 0 {
            break;
        }
    }
}

/// Takes what lies in the slots of a closed table into the empty vector.
fn take_out<T, A: Allocator>(mut closed: Closed<Option<T>, A>, mut room: Vec<T, A>) -> Vec<T, A>
    requires full { IsFull closed.slots }
    requires filled { (k : ℕ) → k < slots_len closed.slots
        → (x : T) × (get_elem? (slots_items closed.slots) k ≡ some (Some x)) }
    requires roomy { (room.items ≡ []) × (slots_len closed.slots ≤ vec_capacity room) }
    ensures items { map (λ (x : T). Some x) result.items ≡ slots_items closed.slots }
    ensures room { vec_capacity result ≡ vec_capacity room }
{
    for rank in 0..closed.slot_count() {
        let Some(x) = closed.take(rank) else {
            unreachable!()
        };
        room.push_reserved(x);
    }
    closed.free();
    room
}
