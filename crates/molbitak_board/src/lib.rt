// The boundary to Rust and C: a board fitted, whether it is valid, and one event of any kind, on a board whose kinds are codes. An event changes
// the board in place, through a reference.
#![tactic(auto)]

pub mod call;
