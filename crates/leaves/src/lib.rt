// The leaves as C functions, to be run and measured beside the Rust. They are no part of the library's interface.
#![tactic(auto)]

ghost use Rattle.std.specs.Prelude.{◌≡◌, ◌++◌, ◌+◌, ◌-◌, ◌<◌, ◌≤◌, length};
ghost use Rattle.heap.specs.Moves.{push, pop, sort};
ghost use Rattle.heap.specs.Neighbors.{key_of, none, pairs, held, behind};
ghost use Rattle.kinds.specs.Order.{order_of};
ghost use Rattle.metrics.specs.Distance.{metric_of};
ghost use Rattle.leaves.specs.Alike.{distance_or_largest};

use heap::{BinaryHeap, Neighbor};
use kinds::{Id, Order};
use metrics::Metric;

#[unsafe(no_mangle)]
pub extern "C" fn leaves_order(x: f32) -> i32
    ensures { result ≡ order_of x }
{
    Order::from(x).0
}

// By the metric's number, and with a number for "no distance", since C has no Metric and no Option: vectors of unequal length give the
// largest finite f32.
#[unsafe(no_mangle)]
pub extern "C" fn leaves_distance(metric: u16, a: &[f32], b: &[f32]) -> f32
    ensures { result ≡ distance_or_largest (metric_of metric) a.now b.now }
{
    if a.len() != b.len() {
        return metrics::cut::LARGEST;
    }
    Metric::from(metric).distance(a, b).value
}

// The heap's three calls, on what C lends: two arrays and a length. As there, it is the caller who sees to the lengths.
#[unsafe(no_mangle)]
pub extern "C" fn leaves_push(
    ids: &mut [u16],
    distances: &mut [f32],
    len: usize,
    id: u16,
    distance: f32,
)
    requires { (len < length ids.old) × (length ids.old ≡ length distances.old) }
    ensures { pairs ids.new distances.new ≡ push key_of none (held ids.old distances.old len) (record { id = record { 0 = id }; distance = distance }) ++ behind ids.old distances.old (len + 1) }
{
    let mut heap = BinaryHeap {
        ids,
        distances,
        len,
    };
    heap.push(Neighbor {
        id: Id(id),
        distance,
    });
}

// The id of a greatest entry, and its distance, which C takes through a pointer.
#[unsafe(no_mangle)]
pub extern "C" fn leaves_pop(
    ids: &mut [u16],
    distances: &mut [f32],
    len: usize,
    distance: &mut f32,
) -> u16
    requires { (0 < len) × (len ≤ length ids.old) × (length ids.old ≡ length distances.old) }
    ensures { (result ≡ (pop key_of none (held ids.old distances.old len)).item.id.0) × (distance.new ≡ (pop key_of none (held ids.old distances.old len)).item.distance) × (pairs ids.new distances.new ≡ (pop key_of none (held ids.old distances.old len)).rest ++ behind ids.old distances.old (len - 1)) }
{
    let mut heap = BinaryHeap {
        ids,
        distances,
        len,
    };
    let item = heap.pop();
    *distance = item.distance;
    item.id.0
}

#[unsafe(no_mangle)]
pub extern "C" fn leaves_sort(ids: &mut [u16], distances: &mut [f32], len: usize)
    requires { (len ≤ length ids.old) × (length ids.old ≡ length distances.old) }
    ensures { pairs ids.new distances.new ≡ sort key_of none len (held ids.old distances.old len) ++ behind ids.old distances.old len }
{
    let mut heap = BinaryHeap {
        ids,
        distances,
        len,
    };
    heap.into_sorted_vec();
}
