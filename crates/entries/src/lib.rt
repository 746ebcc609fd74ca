// The entries of the page tables, and the windows that they are of. What they answer is defined in specs/Entries.antt.
#![tactic(auto)]

mod entry;
mod windows;

pub use entry::{chr_entry, prg_entry};
pub use windows::{chr, chr_bank, layout, prg_ram, prg_rom};
