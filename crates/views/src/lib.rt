// A view of a page of the lent image, and a poke into one. Each tests first that the board is valid.
// What they answer is defined in specs/Views.antt.
#![tactic(auto)]

mod image;
mod table;

pub use image::{check_view, entry_at, page_at, place, poke, view};
pub use table::Table;
