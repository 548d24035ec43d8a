//! What each step reports, and how a seat is made. These types are for the proofs alone.

ghost use Rattle.claim_table.specs.ClaimSteps.{view_away, Reserves, Returns, Enrols, Takes, Retires, Seals};

use crate::view::View;
use atomic_table::{Play, Split};
use node_core::Node;
use std::alloc::Allocator;

/// A new worker's seat is cut off, and the seat that it is cut off from stays as it is.
pub struct Hire;

impl Split<View> for Hire {
    ghost left = { λ v. v };

    ghost right = { λ _. view_away };
}

pub struct Reserve;

impl<A: Allocator> Play<Option<Node<A>>, View> for Reserve {
    ghost then = { Reserves };
}

pub struct Return;

impl<A: Allocator> Play<Option<Node<A>>, View> for Return {
    ghost then = { Returns };
}

pub struct Enrol;

impl<A: Allocator> Play<Option<Node<A>>, View> for Enrol {
    ghost then = { Enrols };
}

pub struct Take;

impl<A: Allocator> Play<Option<Node<A>>, View> for Take {
    ghost then = { Takes };
}

pub struct Retire;

impl<A: Allocator> Play<Option<Node<A>>, View> for Retire {
    ghost then = { Retires };
}

pub struct Seal;

impl<A: Allocator> Play<Option<Node<A>>, View> for Seal {
    ghost then = { Seals };
}
