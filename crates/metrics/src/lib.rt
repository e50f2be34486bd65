// Distances between vectors: hora's metrics.rs, for f32 and the three metrics that are kept.
#![tactic(auto)]

mod chain;
pub mod cut;
pub mod dot;
pub mod euclidean;
pub mod manhattan;

ghost use Rattle.std.specs.Prelude.{◌≡◌};
ghost use Rattle.metrics.specs.Distance.{number_of, metric_of, measured, distance_of};

use cut::to_finite;
use dot::dot_product;
use euclidean::euclidean_distance;
use manhattan::manhattan_distance;

// In hora's order, which is that of their numbers. CosineSimilarity and Angular have a number and no distance here.
#[derive(Clone, Copy, Debug, PartialEq, Eq, Hash)]
pub enum Metric {
    Unknown,
    Manhattan,
    DotProduct,
    Euclidean,
    CosineSimilarity,
    Angular,
}

// A distance is always finite.
#[derive(Clone, Copy, Debug, PartialEq)]
pub struct Distance {
    pub value: f32,
}

impl From<Metric> for u16 {
    ghost from_gives = { λ metric n. n ≡ number_of metric };

    fn from(metric: Metric) -> u16 {
        metric as u16
    }
}

// A number that stands for no metric is Unknown's.
impl From<u16> for Metric {
    ghost from_gives = { λ n metric. metric ≡ metric_of n };

    fn from(n: u16) -> Metric {
        match n {
            1 => Metric::Manhattan,
            2 => Metric::DotProduct,
            3 => Metric::Euclidean,
            4 => Metric::CosineSimilarity,
            5 => Metric::Angular,
            _ => Metric::Unknown,
        }
    }
}

impl Metric {
    // Before the cut. A metric that has no kernel here has no distance: NaN, as the definition `measured` has it.
    #[tactic(auto, using(crate::proofs::CutLaws::nan_is))]
    fn measured(self, a: &[f32], b: &[f32]) -> f32
        ensures { result ≡ measured self a.now b.now }
    {
        match self {
            Metric::Manhattan => manhattan_distance(a, b),
            Metric::DotProduct => dot_product(a, b),
            Metric::Euclidean => euclidean_distance(a, b),
            Metric::Unknown | Metric::CosineSimilarity | Metric::Angular => f32::NAN,
        }
    }

    // Total, and always finite.
    #[tactic(auto, unfolding(crate::specs::Distance::distance_of))]
    pub fn distance(self, a: &[f32], b: &[f32]) -> Distance
        ensures { result ≡ record { value = distance_of self a.now b.now } }
    {
        Distance {
            value: to_finite(self.measured(a, b)),
        }
    }
}
