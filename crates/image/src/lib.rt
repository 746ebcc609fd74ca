// The image that a script's views and pokes are made in, and the lines of pages and views. specs/Image.antt defines what each gives.
#![tactic(auto)]

mod fill;
mod show;

pub use fill::{fill_image, image_length, poke_image};
pub use show::{page_lines, view_line};
