// The boundary's quick calls, for a board known to be valid: each applies one event to the parts of a board that it is lent, and tests no
// validity. The C interface lends the parts one by one, and a chip as its ten bytes. Line changes are a library of their own
// (molbitak_lines), so that the chip's step has one caller there and is compiled into it.
#![tactic(auto)]

pub mod card;
pub mod clock;
pub mod read;
pub mod write;
