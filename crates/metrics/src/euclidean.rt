ghost use Rattle.std.specs.Prelude.{◌≡◌};
ghost use Rattle.metrics.specs.Chain.{total, squared};

use crate::chain::{self, Term};

struct Squared;

impl Term for Squared {
    ghost term = { squared };

    fn of(x: f32, y: f32) -> f32 {
        let d = x - y;
        d * d
    }
}

// The sum of squared differences: no root is taken.
pub fn euclidean_distance(a: &[f32], b: &[f32]) -> f32
    ensures { result ≡ total squared a.now b.now }
{
    chain::total::<Squared>(a, b)
}
