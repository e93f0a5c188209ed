// The tile: the kernel that sums it, and its masked copy into C.
#![tactic(auto)]

pub mod complex;
mod complex32;
mod complex64;
pub mod kernels;
pub mod masked;
pub mod pair;
mod reads;
pub mod real;
mod real32;
mod real64;
