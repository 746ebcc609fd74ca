// Pages of a cartridge's memory image, as page tables hold them. The numbers that the contracts cite are defined in specs/Page.antt.
#![tactic(auto)]

mod image;

ghost use Rattle.std.specs.Prelude.{◌≡◌};
ghost use Rattle.image_page.specs.Page.{offset_of, writable_of};

pub use image::{page_part, poke, store_byte};

// A page of the image, as its entry in a page table: the offset, plus WRITABLE if it may be written.
#[repr(C)]
#[derive(Clone, Copy)]
pub struct Page(pub u32);

impl Page {
    // The bytes of a page.
    pub const SIZE: u64 = 1024;

    // An entry holds an offset below this.
    pub const OFFSETS: u64 = 0x40000000;

    // What an entry has added to its offset if the page may be written.
    pub const WRITABLE: u32 = 0x80000000;

    // The entry of no page: it shows page 0, which is zeros, and takes no byte.
    pub const UNMAPPED: u32 = 0;

    // Where the page starts in the image.
    pub fn offset(self) -> usize
        ensures { result ≡ offset_of self.0 }
    {
        (self.0 as u64 % Page::OFFSETS) as usize
    }

    // Returns whether the page may be written.
    pub fn is_writable(self) -> bool
        ensures { result ≡ writable_of self.0 }
    {
        self.0 >= Page::WRITABLE
    }
}
