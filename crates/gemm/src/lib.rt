// C becomes alpha A B + beta C, in any kind: the entry point, and C where the depth is zero.
#![tactic(auto)]

pub mod gemm;
mod scale;
