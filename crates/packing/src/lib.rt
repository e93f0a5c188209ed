// Packing: panels of tile width into the pack buffer.
#![tactic(auto)]

mod complex;
mod complex32;
mod complex64;
mod lanes;
pub mod matrix;
pub mod packs;
pub mod panels;
mod real;
mod real32;
mod real64;
