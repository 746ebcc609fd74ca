// The commands of a replay script: the words that name them, and the numbers that each takes. specs/Commands.antt defines each.
#![tactic(auto)]

mod fields;
mod names;

pub use fields::{form_of, holds, wanted};
pub use names::command_of;

// What follows a command. `NoCommand` is one of them, since `form_of` of specs/Commands.antt has a form for each command.
#[derive(Clone, Copy, PartialEq, Eq, Debug)]
pub enum Form {
    Numbers,
    // prg or chr, then numbers
    MemoryAndNumbers,
    // one word of hexadecimal digits
    Bytes,
    // nothing: it is no command
    NoCommand,
}

// What a line asks for. `Nothing` and `Unknown` are among them, since `command_of` of specs/Commands.antt has a command for each word.
#[derive(Clone, Copy, PartialEq, Eq)]
pub enum Command {
    // a blank line
    Nothing,
    Fit,
    Write,
    Read,
    Clocks,
    Card,
    Insert,
    Lines,
    Event,
    Counts,
    Stop,
    File,
    Resume,
    Pages,
    State,
    Bars,
    Image,
    View,
    Poke,
    Module,
    // a view and a poke of the image lent as two buffers
    View2,
    Poke2,
    Decode,
    // a word that is no command
    Unknown,
}

impl Command {
    // How many numbers a line has room for. No command takes more.
    pub const NUMBERS: usize = 16;
}
