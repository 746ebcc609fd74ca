// What a line of a script does to the player. specs/Play.antt defines it.
#![tactic(auto)]

mod dispatch;

pub use dispatch::{counted, run_line, too_long};
