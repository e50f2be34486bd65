// Every distance is finite: what runs past the finite range is cut back to its end.
ghost use Rattle.std.specs.Prelude.{◌≡◌};
ghost use Rattle.metrics.specs.Cut.{cut};

// The largest finite f32.
pub const LARGEST: f32 = f32::MAX;

// A NaN counts as positive infinity.
#[tactic(auto, using(crate::proofs::CutLaws::cut_kept, crate::proofs::CutLaws::cut_minus, crate::proofs::CutLaws::cut_rest))]
pub fn to_finite(x: f32) -> f32
    ensures { result ≡ cut x }
{
    if x.is_finite() {
        x
    } else if x == f32::NEG_INFINITY {
        -LARGEST
    } else {
        LARGEST
    }
}
