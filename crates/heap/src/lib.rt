// hora's heap.rs, and what it holds.
#![tactic(auto)]

pub mod binary_heap;

ghost use Rattle.std.proofs.Common.{rules};
ghost use Rattle.std.specs.Cmp.Rules.{comparing};
ghost use Rattle.std.specs.Ordering.{eq_by_cmp, on, int_cmp, as_partial_cmp};
ghost use Rattle.heap.specs.Neighbors.{key_of};

pub use binary_heap::BinaryHeap;
use kinds::{Id, Order};
use std::cmp::Ordering;

// An id and its distance.
#[derive(Clone, Copy, Debug)]
pub struct Neighbor {
    pub id: Id,
    pub distance: f32,
}

// By the distance's order number alone: ids never break ties.
impl PartialEq for Neighbor {
    ghost eq = { eq_by_cmp (on key_of int_cmp) };

    ghost laws = { Prim.search (comparing, rules) };

    fn eq(&self, other: &Neighbor) -> bool {
        Order::from(self.distance) == Order::from(other.distance)
    }
}

impl Eq for Neighbor {
    ghost laws = { Prim.search (comparing, rules) };
}

impl PartialOrd for Neighbor {
    ghost partial_cmp = { as_partial_cmp (on key_of int_cmp) };

    ghost laws = { Prim.search (comparing, rules) };

    fn partial_cmp(&self, other: &Neighbor) -> Option<Ordering> {
        Some(self.cmp(other))
    }
}

impl Ord for Neighbor {
    ghost cmp = { on key_of int_cmp };

    ghost total = { Prim.search (comparing, rules) };

    ghost matches_partial_cmp = { Prim.search (comparing, rules) };

    ghost matches_eq = { Prim.search (comparing, rules) };

    fn cmp(&self, other: &Neighbor) -> Ordering {
        Order::from(self.distance).cmp(&Order::from(other.distance))
    }
}
