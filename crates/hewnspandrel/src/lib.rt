// The C interface: thin over the four entry points, the need, and panels. A slice crosses as a pointer and its length, a record by value.
// include/hewnspandrel.h declares these functions. Rust: lib.rs.
#![tactic(auto)]

pub mod complex32;
pub mod complex64;
pub mod head;
pub mod interface;
pub mod length;
pub mod numbers;
pub mod panel32;
pub mod panel64;
pub mod real32;
pub mod real64;
