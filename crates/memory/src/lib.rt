// The windows that map the regions of a cartridge's memory image, and the entries of their pages.
// The names are those of the published crate's `memory.rs`. The numbers that the contracts cite are defined in specs/Memory.antt and, where
// they say how the code finds them, in specs/Walked.antt.
#![tactic(auto)]

mod banks;
mod each_page;

pub use banks::{bank_starts, banks_of_1k, banks_of_16k, nametable_entry, nametable_starts};
pub use each_page::{map_pages, map_starts, repeat_nametables};

// A region as a window shows it: the window's first byte lies `base` bytes into the region.
#[repr(C)]
#[derive(Clone, Copy)]
pub struct Window {
    pub start: u64,
    pub len: u64,
    pub base: u32,
    pub writable: bool,
}
