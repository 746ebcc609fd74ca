// The lines of a replay script: the command of a line, its numbers, or what is wrong with it. specs/Script.antt defines each.
#![tactic(auto)]

mod fault;
mod numbers;
mod reading;
mod words;

pub use commands::Command;
pub use fault::LineFault;
pub use reading::{bytes_in, parse};

// What a line says: its command, whether a view or a poke is of CHR, and its numbers in order, 0 past them. `chr` is a flag, since the enum
// that it chooses from (`Table` of crate views) lies above the words of a script.
#[derive(Clone, Copy)]
pub struct Line {
    pub value: [u64; Command::NUMBERS],
    pub command: Command,
    pub chr: bool,
}

impl Line {
    // The most bytes that a line may have.
    pub const LONGEST: usize = 4096;
}
