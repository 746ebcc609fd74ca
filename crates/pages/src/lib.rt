// The page tables of a board. What they answer is defined in specs/Pages.antt.
#![tactic(auto)]

mod tables;

pub use tables::{PageTables, page_tables, update_banks};
