// Prints how far (1,2) and (4,-2) lie apart under each metric: the bits of the distance, as a hexadecimal number.
#![tactic(auto)]

use metrics::Metric;
use std::io;

// The bits can be taken, since no distance is a NaN.
#[tactic(auto, using(metrics::proofs::DistanceLaws::distance_no_nan))]
fn show(rt: &impl Print, name: &str, metric: Metric) -> io::Result<()> {
    let distance = metric.distance(&[1.0, 2.0], &[4.0, -2.0]);
    println!(rt; "{name}{:08x}", distance.value.to_bits())
}

fn main(rt: HostRuntime) -> io::Result<()> {
    show(&rt, "Euclidean  ", Metric::Euclidean)?;
    show(&rt, "Manhattan  ", Metric::Manhattan)?;
    show(&rt, "DotProduct ", Metric::DotProduct)
}
