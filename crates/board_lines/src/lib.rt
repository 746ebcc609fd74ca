// The lines that show a board: every field by its name, and the modules of its reader. specs/BoardLines.antt defines them.
#![tactic(auto)]

mod bars;
mod state;

pub use bars::bars_line;
pub use state::state_lines;
