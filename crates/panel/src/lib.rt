// Panels: read from a file, and held together with their shape. No counterpart in the Rust.
#![tactic(auto)]

pub mod file;
pub mod head;
pub mod panels;
pub mod reader;
pub mod stored;
