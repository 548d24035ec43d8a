//! A `Vec` that contracts see as the list of its elements.
//!
//! A `Vec` also has a capacity and an allocator, so two vectors with the same elements are different values in a contract. A [`ListVec`] is
//! seen as the list alone: a struct with such a field is compared by its elements. It is made from a `Vec`, and gives it back, without
//! taking memory.
#![tactic(auto)]

ghost use Rattle.std.specs.Prelude.{◌≡◌, ◌==◌, length};

use std::alloc::Allocator;
use std::marker::Model;

/// A vector of which contracts see the elements alone.
#[derive(Drop)]
pub struct ListVec<T, A: Allocator> {
    items: Vec<T, A>,
}

impl<T, A: Allocator> Model for ListVec<T, A> {
    ghost use Rattle.std.specs.Prelude.{List};

    ghost Value = { List T };

    ghost view = { λ v. v.items.items };
}

impl<T, A: Allocator> ListVec<T, A> {
    /// The elements of `items`, which keep their memory.
    pub fn from_vec(items: Vec<T, A>) -> Self
        ensures { result ≡ items.items }
    {
        ListVec { items }
    }

    /// The vector that this was made from, with the same elements.
    pub fn into_vec(self) -> Vec<T, A>
        ensures { result.items ≡ self }
    {
        let ListVec { items } = self;
        items
    }

    pub fn as_slice(&self) -> &[T]
        ensures { result.now ≡ self.now }
    {
        self.items.as_slice()
    }

    pub fn len(&self) -> usize
        ensures { result ≡ length self.now }
    {
        self.items.len()
    }

    pub fn is_empty(&self) -> bool
        ensures { result ≡ (length self.now == 0) }
    {
        self.items.is_empty()
    }
}
