// What is found once for a window, before the entries of its pages: its start, by one remainder. Also the nametables, each a window of one
// page.
ghost use Rattle.std.specs.Prelude.{◌≡◌};
ghost use Rattle.memory.specs.Memory.{whole_banks, nametable_bank, nametable_of};
ghost use Rattle.memory.specs.Walked.{wrapped_bank, window_in, first_window, page_start, bank_starts, nametable_starts};

use super::Window;
use image_layout::Region;
use image_page::Page;

// A bank by the remainder of their number. None counts as one.
#[tactic(auto, unfolding(crate::specs::Walked::wrapped_bank, crate::specs::Memory::at_least_one))]
fn wrapped(bank: u8, banks: u64) -> u64
    ensures { result ≡ wrapped_bank bank banks }
{
    u64::from(bank) % banks.max(1)
}

// Returns the number of whole banks of 16 KiB in a region.
pub fn banks_of_16k(region: Region) -> u64
    ensures { result ≡ whole_banks region 16384 }
{
    region.len >> 14
}

// Returns the number of whole banks of 1 KiB in a region.
pub fn banks_of_1k(region: Region) -> u64
    ensures { result ≡ whole_banks region 1024 }
{
    region.len >> 10
}

impl Window {
    // The CIRAM pages of the four nametables by the mirroring.
    const NAMETABLES: [[u8; 4]; 5] = [
        [0, 1, 0, 1], // vertical
        [0, 0, 1, 1], // horizontal
        [0, 0, 0, 0], // single screen A
        [1, 1, 1, 1], // single screen B
        [0, 1, 2, 3], // four screens
    ];

    // Returns the window of `size` bytes on a bank of a region that has so many banks. None counts as one.
    pub fn new(region: Region, writable: bool, size: u16, banks: u64, bank: u8) -> Self
        ensures { result ≡ window_in region writable size banks bank }
    {
        let base = wrapped(bank, banks) * u64::from(size);
        Window {
            start: region.start,
            len: region.len,
            base: base as u32,
            writable,
        }
    }

    // Returns the window on a region from its beginning: that of bank 0, whatever its size.
    pub fn first(region: Region, writable: bool) -> Self
        ensures { result ≡ first_window region writable }
    {
        Window {
            start: region.start,
            len: region.len,
            base: 0,
            writable,
        }
    }
}

// Where the page of a 1 KiB bank starts in a region.
fn page_start(region: Region, bank: u8) -> u32
    ensures { result ≡ page_start region bank }
{
    let window = Window::new(region, false, Page::SIZE as u16, banks_of_1k(region), bank);
    window.base
}

// Returns where the pages of eight 1 KiB banks start in a region.
pub fn bank_starts(region: Region, banks: [u8; 8]) -> [u32; 8]
    ensures { result ≡ bank_starts region banks }
{
    banks.map(|bank| page_start(region, bank))
}

// The bank of CIRAM that nametable i shows.
fn nametable_bank(mirroring: u8, i: u32) -> u8
    ensures { result ≡ nametable_bank mirroring i }
{
    let row = Window::NAMETABLES[usize::from(mirroring.min(4))];
    row[(i & 3) as usize]
}

// Returns where the four nametables start in CIRAM. A mirroring above 4 is as 4, four screens.
pub fn nametable_starts(ciram: Region, mirroring: u8) -> [u32; 4]
    ensures { result ≡ nametable_starts ciram mirroring }
{
    std::array::from_fn(|i| page_start(ciram, nametable_bank(mirroring, i as u32)))
}

// Returns the entry of nametable i. A mirroring above 4 is as 4, four screens.
pub fn nametable_entry(ciram: Region, mirroring: u8, i: u32) -> u32
    ensures { result ≡ nametable_of ciram mirroring i }
{
    let bank = nametable_bank(mirroring, i);
    let window = Window::new(ciram, true, Page::SIZE as u16, banks_of_1k(ciram), bank);
    window.entry(0)
}
