// The examples P1 to P12 of rules/specs/Examples.antt and element/specs/Examples.antt, run, with some of layouts and refusals: each line is
// the entry point, the example, the answer's number and C's floats by their bits.
#![tactic(auto)]

mod chunks;
mod complexes;
mod example;
mod layouts;
mod reals;

use std::io;

fn main(rt: HostRuntime) -> io::Result<()> {
    reals::one_to_five::<f32>(&rt)?;
    chunks::six_to_eight(&rt)?;
    reals::ten::<f32>(&rt)?;
    reals::one_to_five::<f64>(&rt)?;
    chunks::nine(&rt)?;
    reals::ten::<f64>(&rt)?;
    complexes::both::<f32>(&rt)?;
    complexes::both::<f64>(&rt)?;
    layouts::all(&rt)
}
