// The lines that a script's commands answer with, put into a lent buffer. specs/Lines.antt defines each.
#![tactic(auto)]

mod answers;
mod bytes;
mod faults;
mod pattern;

pub use answers::{answer_lines, put_byte, refused_lines};
pub use bytes::{bytes_line, front, words_line};
pub use faults::fault_line;
pub use pattern::{hex_line, put_pattern};
