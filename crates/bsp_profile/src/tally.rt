//! Adds up what an exchange will move from rank to rank.

ghost use Rattle.std.specs.Prelude.{◌≡◌, ℕ, ◌+◌, ◌*◌, ◌^◌, ◌<◌, ◌≤◌, All, IfOk, length, map, slice_index, slice_set, sum_by, replicate};
ghost use Rattle.std.specs.List.{range_with_len};
ghost use Rattle.bsp_requests.specs.Request.{asked, size_of};
ghost use Rattle.bsp_requests.specs.Requests.{IsWithinLimits};
ghost use Rattle.node_core.specs.Hart.{max_nodes};
ghost use Rattle.bsp_exchange.specs.Exchange.{states};
ghost use Rattle.bsp_exchange.specs.Parts.{target_of};
ghost use Rattle.machine_core.specs.Sound.{IsSoundMachine};
ghost use Rattle.bsp_profile.specs.Moves.{others};
ghost use Rattle.bsp_profile.specs.Tally.{place as place_of, bytes_added, message_added, added, added_by, IsNodeAmong, IsWithin, Tells};

use bsp_requests::{Request, Requests};
use machine_core::Machine;
use node_core::Node;
use std::alloc::{AllocError, Allocator};

/// What an exchange moves, in a table of a column for each rank.
#[derive(Drop)]
pub(crate) struct Tally<A: Allocator> {
    /// How many ranks there are.
    pub(crate) count: usize,
    /// The messages that each rank receives from others; then the bytes that go from rank 0 to each rank, those from rank 1, ..
    pub(crate) cells: Vec<u64, A>,
}

impl<A: Allocator + Copy> Tally<A> {
    /// What the exchange at the end of this superstep moves, none of whose nodes runs any more: nothing if none is made.
    pub(crate) fn of(alloc: A, machine: &Machine<A>) -> Result<Tally<A>, AllocError>
        requires sound { IsSoundMachine machine.now }
        ensures { IfOk result (λ t. Tells machine.now.nodes t.count t.cells.items) }
    {
        let nodes = machine.nodes();
        let count = nodes.len();
        let mut cells = empty_cells(alloc, count)?;
        if machine.makes_exchange() {
            add_nodes(count, nodes, &mut cells);
        }
        Ok(Tally { count, cells })
    }
}

impl<A: Allocator> Tally<A> {
    /// The bytes that go from one rank to another, or to itself.
    pub(crate) fn bytes(&self, from: usize, to: usize) -> u64
        requires few { self.now.count ≤ max_nodes }
        requires size { length self.now.cells.items ≡ (self.now.count + 1) * self.now.count }
        requires from { from < self.now.count }
        requires to { to < self.now.count }
        requires bounded { IsWithin (2 ^ 47) self.now.cells.items }
        ensures value { result ≡ slice_index self.now.cells.items (place_of self.now.count (from + 1) to) }
        ensures bounded { result ≤ 2 ^ 47 }
    {
        self.cells[place(self.count, from + 1, to)]
    }

    /// The messages that a rank receives from others.
    pub(crate) fn messages(&self, rank: usize) -> u64
        requires { rank < length self.now.cells.items }
        ensures { result ≡ slice_index self.now.cells.items rank }
    {
        self.cells[rank]
    }

    /// The bytes that go from a rank to all others.
    pub(crate) fn moved_out(&self, rank: usize) -> u64
        requires few { self.now.count ≤ max_nodes }
        requires size { length self.now.cells.items ≡ (self.now.count + 1) * self.now.count }
        requires bounded { IsWithin (2 ^ 47) self.now.cells.items }
        requires rank { rank < self.now.count }
        ensures { result ≡ sum_by (λ to. slice_index self.now.cells.items (place_of self.now.count (rank + 1) to))
            (others self.now.count rank) }
    {
        let mut all = 0;
        for to in 0..self.count {
            if to != rank {
                all += self.bytes(rank, to);
            }
        }
        all
    }

    /// The bytes that come to a rank from all others.
    pub(crate) fn moved_in(&self, rank: usize) -> u64
        requires few { self.now.count ≤ max_nodes }
        requires size { length self.now.cells.items ≡ (self.now.count + 1) * self.now.count }
        requires bounded { IsWithin (2 ^ 47) self.now.cells.items }
        requires rank { rank < self.now.count }
        ensures { result ≡ sum_by (λ from. slice_index self.now.cells.items (place_of self.now.count (from + 1) rank))
            (others self.now.count rank) }
    {
        let mut all = 0;
        for from in 0..self.count {
            if from != rank {
                all += self.bytes(from, rank);
            }
        }
        all
    }
}

/// The cells of a table with nothing in it.
fn empty_cells<A: Allocator + Copy>(alloc: A, count: usize) -> Result<Vec<u64, A>, AllocError>
    requires { count ≤ max_nodes }
    ensures size { IfOk result (λ cells. length cells.items ≡ (count + 1) * count) }
    ensures empty { IfOk result (λ cells. IsWithin 0 cells.items) }
{
    vec![in alloc; 0u64; (count + 1) * count]
}

/// The place of a cell, by its row and column.
fn place(count: usize, row: usize, column: usize) -> usize
    requires few { count ≤ max_nodes }
    requires row { row < count + 1 }
    requires column { column < count }
    ensures value { result ≡ place_of count row column }
    ensures within { result < (count + 1) * count }
{
    row * count + column
}

/// Adds what the requests of all nodes move.
fn add_nodes<A: Allocator + Copy>(count: usize, nodes: &[Node<A>], cells: &mut [u64])
    requires few { count ≤ max_nodes }
    requires size { length cells.old ≡ (count + 1) * count }
    requires nodes { All (IsNodeAmong count) (states nodes.now) }
    requires long { length nodes.now ≡ count }
    requires empty { IsWithin 0 cells.old }
    ensures cells { (k : ℕ) → k < length cells.old
        → slice_index cells.new k ≡ sum_by (added_by count k) (states nodes.now) }
    ensures bounded { IsWithin (2 ^ 47) cells.new }
{
    for node in nodes {
        add_requests(count, node.rank() as usize, node.requests(), cells);
    }
}

/// Adds what the requests of the node `caller` move.
fn add_requests<A: Allocator + Copy>(
    count: usize,
    caller: usize,
    requests: &Requests<A>,
    cells: &mut [u64],
)
    requires few { count ≤ max_nodes }
    requires size { length cells.old ≡ (count + 1) * count }
    requires caller { caller < count }
    requires targets { All (λ r. target_of r < count) requests.now.requests }
    requires limits { IsWithinLimits requests.now }
    requires room { IsWithin (2 ^ 47) cells.old }
    ensures { (k : ℕ) → k < length cells.old
        → slice_index cells.new k ≡ slice_index cells.old k + sum_by (added count k caller) requests.now.requests }
{
    for issue in 0..requests.len() {
        if let Some(request) = requests.at(issue) {
            add_request(count, caller, request, cells);
        }
    }
}

/// Adds what a request of the node `caller` moves.
fn add_request<A: Allocator + Copy>(
    count: usize,
    caller: usize,
    request: &Request<A>,
    cells: &mut [u64],
)
    requires few { count ≤ max_nodes }
    requires size { length cells.old ≡ (count + 1) * count }
    requires caller { caller < count }
    requires target { target_of (asked request.now) < count }
    requires limit { size_of (asked request.now) ≤ 2 ^ 30 }
    requires room { IsWithin (2 ^ 48) cells.old }
    ensures { (k : ℕ) → k < length cells.old
        → slice_index cells.new k ≡ slice_index cells.old k + added count k caller (asked request.now) }
{
    match request {
        Request::Put(put) => {
            let bytes = put.bytes.len() as u64;
            add_bytes(count, caller, put.target as usize, bytes, cells);
        }
        Request::Get(get) => {
            let bytes = u64::from(get.len);
            add_bytes(count, get.target as usize, caller, bytes, cells);
        }
        Request::Send(message) => {
            let bytes = message.size() as u64;
            add_bytes(count, caller, message.target as usize, bytes, cells);
            add_message(caller, message.target as usize, cells);
        }
    }
}

/// Adds bytes that go from one rank to another, or to itself. Messages among them have cells of their own.
fn add_bytes(count: usize, from: usize, to: usize, bytes: u64, cells: &mut [u64])
    requires few { count ≤ max_nodes }
    requires size { length cells.old ≡ (count + 1) * count }
    requires from { from < count }
    requires to { to < count }
    requires limit { bytes ≤ 2 ^ 30 }
    requires room { IsWithin (2 ^ 48) cells.old }
    ensures { (k : ℕ) → k < length cells.old
        → slice_index cells.new k
        ≡ slice_index cells.old k + bytes_added count k (record { from = from; to = to; bytes = bytes; messages = 0 }) }
{
    add(place(count, from + 1, to), bytes, cells);
}

/// Adds a message from one rank to another; one to itself is not counted.
fn add_message(from: usize, to: usize, cells: &mut [u64])
    requires to { to < length cells.old }
    requires room { IsWithin (2 ^ 49) cells.old }
    ensures { (k : ℕ) → k < length cells.old
        → slice_index cells.new k ≡ slice_index cells.old k + message_added k from to }
{
    if to != from {
        add(to, 1, cells);
    }
}

/// Adds to a cell.
fn add(place: usize, more: u64, cells: &mut [u64])
    requires place { place < length cells.old }
    requires limit { more ≤ 2 ^ 30 }
    requires room { IsWithin (2 ^ 49) cells.old }
    ensures { cells.new ≡ slice_set cells.old place (slice_index cells.old place + more) }
{
    cells[place] += more;
}
