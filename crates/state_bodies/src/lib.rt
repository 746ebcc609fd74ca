// The bodies of the state file: each part of a board as bytes, written after one another, and read from any place of any bytes.
// Words are little-endian. The widths and the order of each body are in specs/Bodies.
#![tactic(auto)]

mod at;
mod cart_body;
mod eeprom_body;
pub mod file_buffer;
mod reader_body;
mod regs_body;

pub use at::{first, u8_at, u16_at};
pub use cart_body::{CART_LENGTH, FileForm, OLD_CART_LENGTH, cart_at, cart_length};
pub use eeprom_body::{eeprom_at, eeprom_length, rom_at};
pub use reader_body::{modules_at, reader_at, reader_length};
pub use regs_body::{REGS_LENGTH, regs_at};
