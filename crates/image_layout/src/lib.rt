// The layout of a cartridge's memory image: its regions, one after the other.
// The names are those of the published crate's `memory.rs`. The numbers that the contracts cite are defined in specs/Layout.antt.
#![tactic(auto)]

ghost use Rattle.std.specs.Prelude.{◌≡◌, ◌+◌, ◌≤◌};
ghost use Rattle.image_layout.specs.Layout.{region_at, end_of, chr_ram_size, ciram_size, layout_of};

use image_page::Page;

// A region of the image: whole pages.
#[repr(C)]
#[derive(Clone, Copy)]
pub struct Region {
    pub start: u64,
    pub len: u64,
}

// The bytes of each part of a cartridge. CHR is the ROM unless that has none; CIRAM 0 stands for 2,048.
#[repr(C)]
#[derive(Clone, Copy)]
pub struct Sizes {
    pub prg_rom: u32,
    pub chr_rom: u32,
    pub chr_ram: u32,
    pub prg_ram: u32,
    pub battery_ext: u32,
    pub ciram: u32,
    pub ex_ram: u32,
}

// Where each region lies, where the writable ones begin, and how long the image is.
#[repr(C)]
#[derive(Clone, Copy)]
pub struct MemoryLayout {
    pub prg_rom: Region,
    pub chr: Region,
    pub prg_ram: Region,
    pub battery_ext: Region,
    pub ciram: Region,
    pub ex_ram: Region,
    pub ram_start: u64,
    pub len: u64,
    pub chr_writable: bool,
}

impl Region {
    // The region of `size` bytes at `start`, rounded up to whole pages.
    fn new(start: u64, size: u32) -> Self
        ensures { (result ≡ region_at start size) × (result.start ≡ start) × (result.len ≤ 0x100000000) }
    {
        Region {
            start,
            len: u64::from(size).next_multiple_of(Page::SIZE),
        }
    }

    // The region of `size` bytes right after this one.
    fn next(self, size: u32) -> Self
        requires { self.start + self.len ≤ 0x8000000000 }
        ensures { (result ≡ region_at (end_of self) size) × (result.start ≡ end_of self) × (result.len ≤ 0x100000000) }
    {
        Region::new(self.start + self.len, size)
    }
}

impl Sizes {
    // CHR RAM takes space only where there is no CHR ROM.
    #[tactic(auto, unfolding(crate::specs::Layout::chr_ram_size))]
    fn chr_ram_size(self) -> u32
        ensures { result ≡ chr_ram_size self }
    {
        if self.chr_rom == 0 { self.chr_ram } else { 0 }
    }

    #[tactic(auto, unfolding(crate::specs::Layout::ciram_size))]
    fn ciram_size(self) -> u32
        ensures { result ≡ ciram_size self }
    {
        if self.ciram == 0 {
            MemoryLayout::CIRAM
        } else {
            self.ciram
        }
    }
}

impl MemoryLayout {
    // The bytes of CIRAM where a cartridge names none.
    pub const CIRAM: u32 = 2048;

    // The layout of an image: page 0, the ROMs, then the writable regions.
    pub fn new(sizes: Sizes) -> Self
        ensures { result ≡ layout_of sizes }
    {
        let prg_rom = Region::new(Page::SIZE, sizes.prg_rom);
        let chr_rom = prg_rom.next(sizes.chr_rom);
        let prg_ram = chr_rom.next(sizes.prg_ram);
        let battery_ext = prg_ram.next(sizes.battery_ext);
        let chr_ram = battery_ext.next(sizes.chr_ram_size());
        let ciram = chr_ram.next(sizes.ciram_size());
        let ex_ram = ciram.next(sizes.ex_ram);
        let chr_writable = sizes.chr_rom == 0;
        let chr = if chr_writable { chr_ram } else { chr_rom };
        MemoryLayout {
            prg_rom,
            chr,
            prg_ram,
            battery_ext,
            ciram,
            ex_ram,
            ram_start: prg_ram.start,
            len: ex_ram.start + ex_ram.len,
            chr_writable,
        }
    }
}
