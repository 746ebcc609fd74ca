// The Bandai FCG and LZ93D50 board of mappers 16, 153, 157 and 159, after tetanes-core's src/mapper/bandai_fcg.rs: how it is fitted, and what
// a register write, a module and a device read, a clock, a card and a line change do. The methods test no validity; they are exact on every board.
#![tactic(auto)]

pub mod barcode_reader;
pub mod board;
mod chips;
mod clock;
pub mod device;
pub mod module_read;
