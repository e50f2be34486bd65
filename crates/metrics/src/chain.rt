// The sum that the three kernels share. Coordinates in index order, one sum from +0.0, each operation rounds once: nothing is
// fused or reordered. Where one vector is longer, its coordinates past the other's end are left out.
ghost use Rattle.std.specs.Prelude.{◌≡◌, Float};
ghost use Rattle.metrics.specs.Chain.{total};

// What one pair of coordinates adds to the sum.
pub trait Term {
    ghost term: { Float → Float → Float };

    fn of(x: f32, y: f32) -> f32
        ensures { result ≡ term x y };
}

pub fn total<T: Term>(a: &[f32], b: &[f32]) -> f32
    ensures { result ≡ total T.term a.now b.now }
{
    a.iter().zip(b).fold(0.0, |sum, (x, y)| sum + T::of(*x, *y))
}
