// The stored sample of the Rust crate's answers: how calls lie in words.
#![tactic(auto)]

pub mod calls;
