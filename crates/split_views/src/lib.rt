// A view of an image that is lent as two buffers, and a poke into the second of them. Each tests first that the board is valid.
// What they answer is defined in specs/SplitViews.antt.
#![tactic(auto)]

mod place;
mod split;

pub use place::Place;
pub use split::{check_split, place_at, poke_split, ram_start, store_split, view_split};
