//! The points that are set.

ghost use Rattle.std.specs.Prelude.{◌≡◌, ◌+◌, ◌==◌, [], length, IfOk, OnOk, OnErr, if◌then◌else◌};
ghost use Rattle.bsp_debug.specs.declared.point.Point.TheVariants.{Address, Superstep};
ghost use Rattle.bsp_debug.specs.Points.{is_set, AreInOrder, HasAlso, HasNoMore};

use crate::point::Point;
use std::alloc::{AllocError, Allocator};
use std::collections::BTreeSet;
use std::marker::Model;

/// A set of points. Contracts see it as a list that has each of them once.
#[derive(Drop)]
pub(crate) struct Points<A: Allocator> {
    set: BTreeSet<Point, A>,
}

impl<A: Allocator> Model for Points<A> {
    ghost use Rattle.std.specs.Prelude.{List};
    ghost use Rattle.bsp_debug.specs.declared.point.Point.{Point as PointValue};

    ghost Value = { List PointValue };

    ghost view = { λ p. p.set.keys };
}

impl<A: Allocator + Copy> Points<A> {
    pub fn new(alloc: A) -> Self
        ensures { result ≡ [] }
    {
        let set = BTreeSet::new(alloc);
        Points { set }
    }

    pub fn len(&self) -> usize
        ensures { result ≡ length self.now }
    {
        self.set.len()
    }

    pub fn is_empty(&self) -> bool
        ensures { result ≡ (length self.now == 0) }
    {
        self.set.len() == 0
    }

    /// Whether a point is set.
    pub fn has(&self, point: Point) -> bool
        ensures { result ≡ is_set self.now point }
    {
        self.set.contains(&point)
    }

    /// Whether the point before a step of the node of a rank at an address is set. It is asked for each step, and takes time in
    /// the logarithm of the number of points.
    pub fn has_address(&self, rank: u32, addr: u32) -> bool
        ensures { result ≡ is_set self.now (Address rank addr) }
    {
        self.has(Point::Address { rank, addr })
    }

    /// The points, in their order.
    ///
    /// # Errors
    /// If memory is refused.
    pub fn to_vec(&self, alloc: A) -> Result<Vec<Point, A>, AllocError>
        ensures value { IfOk result (λ points. points.items ≡ self.now) }
        ensures order { AreInOrder self.now }
    {
        let mut points = Vec::with_capacity(alloc, self.set.len())?;
        for point in self.set.iter() {
            points.push(*point)?;
        }
        Ok(points)
    }

    /// Sets a point, if it is not set yet.
    ///
    /// # Errors
    /// If memory is refused. Nothing has changed then.
    pub fn add(&mut self, point: Point) -> Result<(), AllocError>
        ensures set { OnOk result (HasAlso point self.old self.new) }
        ensures count { OnOk result (length self.new
            ≡ length self.old + (if is_set self.old point then 0 else 1)) }
        ensures err { OnErr result (self.new ≡ self.old) }
    {
        match self.set.insert(point) {
            Ok(_is_new) => Ok(()),
            Err(_refused) => Err(AllocError),
        }
    }

    /// Takes a point away, and answers whether it was set.
    pub fn remove(&mut self, point: Point) -> bool
        ensures set { HasNoMore point self.old self.new }
        ensures count { length self.new + (if is_set self.old point then 1 else 0) ≡ length self.old }
        ensures was { result ≡ is_set self.old point }
    {
        self.set.remove(&point)
    }
}
