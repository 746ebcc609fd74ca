// The boundary's page tables, views and pokes.
#![tactic(auto)]

pub mod image;
pub mod tables;
