ghost use Rattle.std.specs.Prelude.{◌≡◌};
ghost use Rattle.std.specs.Float.Ieee.{neg};
ghost use Rattle.metrics.specs.Chain.{total, product};

use crate::chain::{self, Term};

struct Product;

impl Term for Product {
    ghost term = { product };

    fn of(x: f32, y: f32) -> f32 {
        x * y
    }
}

// Negated, so that smaller means closer.
pub fn dot_product(a: &[f32], b: &[f32]) -> f32
    ensures { result ≡ neg (total product a.now b.now) }
{
    -chain::total::<Product>(a, b)
}
