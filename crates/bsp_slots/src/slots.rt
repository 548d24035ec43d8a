//! The areas that a node has registered: the list in effect, the next one, and the pushes and pops between them.

ghost use Rattle.std.specs.Prelude.{◌≡◌, ◌↔◌, length, slice_get, false, true, IsTrue, IsNone, IsSomeAnd, IfOk, OnOk, OnErr, IsErrOf};
ghost use Rattle.bsp_slots.specs.Area.{last_position};
ghost use Rattle.bsp_slots.specs.Registrations.{no_registrations, next_list, is_full, pushed, popped, turned, HasSameShape, IsSound};
ghost use Rattle.bsp_slots.specs.Registrations.{max_entries, max_pushes};

use crate::area::{Area, last_position};
use crate::change::{Change, have_same_shape};
use std::alloc::{AllocError, Allocator};
use std::marker::Model;

/// The most entries of the next list, and so of the list in effect.
pub const MAX_ENTRIES: usize = 1_024;

/// The most pushes in a superstep, whatever is popped.
pub const MAX_PUSHES: usize = 65_536;

/// The most entries of the next list of a node of a large machine.
pub const LARGE_ENTRIES: usize = 65_536;

/// The most pushes of a node of a large machine in a superstep.
pub const LARGE_PUSHES: usize = 1 << 24;

/// Why a push was refused; the first that applies.
#[derive(Clone, Copy, Debug, PartialEq, Eq)]
pub enum PushError {
    /// The next list or the superstep's pushes have reached their limit.
    TooMany,
    NoMemory,
}

/// Why a pop was refused; the first that applies.
#[derive(Clone, Copy, Debug, PartialEq, Eq)]
pub enum PopError {
    /// The next list has no entry of the address.
    NotRegistered,
    NoMemory,
}

impl From<AllocError> for PushError {
    ghost use Rattle.std.specs.Prelude.{◌≡◌};
    ghost use Rattle.bsp_slots.specs.declared.slots.PushError.TheVariants.{NoMemory};

    ghost from_gives = { λ _ e. e ≡ NoMemory };

    fn from(_: AllocError) -> PushError {
        PushError::NoMemory
    }
}

impl From<AllocError> for PopError {
    ghost use Rattle.std.specs.Prelude.{◌≡◌};
    ghost use Rattle.bsp_slots.specs.declared.slots.PopError.TheVariants.{NoMemory};

    ghost from_gives = { λ _ e. e ≡ NoMemory };

    fn from(_: AllocError) -> PopError {
        PopError::NoMemory
    }
}

/// The registered areas of a node: the list in effect, and this superstep's pushes and pops, which turn into the next.
#[derive(Drop)]
pub struct Slots<A: Allocator> {
    in_effect: Vec<Area, A>,
    next: Vec<Area, A>,
    changes: Vec<Change, A>,
    pushes: usize,
    ready: bool,
    large: bool,
}

impl<A: Allocator> Model for Slots<A> {
    ghost use Rattle.bsp_slots.specs.Registrations.{PreparedRegistrations};

    ghost Value = { PreparedRegistrations };

    ghost use Rattle.bsp_slots.specs.Slots.{slots_view, FieldsAgree};

    ghost view = { slots_view };

    ghost invariant = { FieldsAgree };
}

impl<A: Allocator + Copy> Slots<A> {
    /// Nothing is registered, with the limits of a large machine or with the others, and no memory is taken.
    pub fn new(alloc: A, large: bool) -> Self
        ensures { result ≡ record { registrations = no_registrations large; ready = false } }
    {
        Slots {
            in_effect: Vec::new(alloc),
            next: Vec::new(alloc),
            changes: Vec::new(alloc),
            pushes: 0,
            ready: false,
            large,
        }
    }

    /// The same registrations, for whose turn no room is made. It costs a copy of both lists and of this superstep's pushes and pops.
    ///
    /// # Errors
    /// If memory is refused.
    pub fn try_clone(&self, alloc: A) -> Result<Self, AllocError>
        ensures { IfOk result (λ s. s ≡ record self.now { ready = false }) }
    {
        Ok(Slots {
            in_effect: Vec::from_slice(alloc, &self.in_effect)?,
            next: Vec::from_slice(alloc, &self.next)?,
            changes: Vec::from_slice(alloc, &self.changes)?,
            pushes: self.pushes,
            ready: false,
            large: self.large,
        })
    }

    /// Registers `area` from the next superstep on.
    pub fn push(&mut self, area: Area) -> Result<(), PushError>
        ensures ok { OnOk result
            (self.new
            ≡ record self.old { registrations = pushed self.old.registrations area; ready = false }) }
        ensures too_many { IsErrOf result PushError.TooMany ↔ IsTrue (is_full self.old.registrations) }
        ensures err { OnErr result (self.new ≡ self.old) }
    {
        if self.next.len() >= most_entries(self.large) || self.pushes >= most_pushes(self.large) {
            return Err(PushError::TooMany);
        }
        self.next.reserve(1)?;
        self.changes.reserve(1)?;
        self.next.push_reserved(area);
        self.changes.push_reserved(Change::Push(area));
        self.pushes += 1;
        self.ready = false;
        Ok(())
    }

    /// Ends the last registration of `addr` from the next superstep on.
    pub fn pop(&mut self, addr: u32) -> Result<(), PopError>
        ensures ok { OnOk result (IsSomeAnd (last_position (next_list self.old.registrations) addr)
            (λ slot. self.new
            ≡ record self.old { registrations = popped self.old.registrations addr slot; ready = false })) }
        ensures not_registered { IsErrOf result PopError.NotRegistered
            ↔ IsNone (last_position (next_list self.old.registrations) addr) }
        ensures err { OnErr result (self.new ≡ self.old) }
    {
        let Some(slot) = last_position(&self.next, addr) else {
            return Err(PopError::NotRegistered);
        };
        self.changes.reserve(1)?;
        self.next.remove(slot);
        self.changes.push_reserved(Change::Pop { addr, slot });
        self.ready = false;
        Ok(())
    }

    /// The position of the last entry of `addr` in the list in effect, for which 16 bits suffice.
    pub fn find(&self, addr: u32) -> Option<u16>
        ensures { result ≡ last_position self.now.registrations.in_effect addr }
    {
        let slot = last_position(&self.in_effect, addr)?;
        Some(slot as u16)
    }

    /// The entry at the position `slot` of the list in effect.
    pub fn area(&self, slot: usize) -> Option<Area>
        ensures { result ≡ slice_get self.now.registrations.in_effect slot }
    {
        self.in_effect.get(slot).copied()
    }

    /// Whether the limits are those of a large machine.
    pub fn is_large(&self) -> bool
        ensures { result ≡ self.now.registrations.large }
    {
        self.large
    }

    /// The number of entries of the list in effect.
    pub fn count(&self) -> usize
        ensures len { result ≡ length self.now.registrations.in_effect }
        ensures sound { IsSound self.now.registrations }
    {
        self.in_effect.len()
    }

    /// Whether both made the same sequence of pushes and pops in this superstep, whatever their addresses and sizes.
    pub fn same_shape<B: Allocator>(&self, other: &Slots<B>) -> bool
        ensures { IsTrue result ↔ HasSameShape self.now.registrations other.now.registrations }
    {
        have_same_shape(&self.changes, &other.changes)
    }

    /// Makes the room that [`Slots::turn`] needs.
    pub fn prepare_turn(&mut self) -> Result<(), AllocError>
        ensures ok { OnOk result (self.new ≡ record self.old { ready = true }) }
        ensures err { OnErr result (self.new ≡ self.old) }
    {
        let missing = self.next.len().saturating_sub(self.count());
        self.in_effect.reserve(missing)?;
        self.ready = true;
        Ok(())
    }

    /// Whether room is made for [`Slots::turn`]: from [`Slots::prepare_turn`] until the next push, pop or turn.
    pub fn ready(&self) -> bool
        ensures { result ≡ self.now.ready }
    {
        self.ready
    }

    /// Brings the next list into effect, and begins a superstep with no push and no pop.
    pub fn turn(&mut self)
        requires { IsTrue self.old.ready }
        ensures { self.new
            ≡ record self.old { registrations = turned self.old.registrations; ready = false } }
    {
        self.in_effect.clear();
        self.in_effect.extend_from_slice(&self.next).unwrap();
        self.changes.clear();
        self.pushes = 0;
        self.ready = false;
    }
}

/// The most entries of the next list.
fn most_entries(large: bool) -> usize
    ensures { result ≡ max_entries large }
{
    if large { LARGE_ENTRIES } else { MAX_ENTRIES }
}

/// The most pushes in a superstep.
fn most_pushes(large: bool) -> usize
    ensures { result ≡ max_pushes large }
{
    if large { LARGE_PUSHES } else { MAX_PUSHES }
}
