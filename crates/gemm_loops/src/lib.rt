// The five loops around the tile kernel, over any kind.
#![tactic(auto)]

pub mod outer;
mod packed;
