// A board as it crosses to Rust or C: no enum may cross, so each kind is its code, a byte that need not be one of a kind. The conversions are
// total; `is_known` says whether every code is known, and who converts a board that came from outside asks that first.
#![tactic(auto)]

pub mod board;
mod bytes;
pub mod chip;
