// Both page tables by value.
ghost use Rattle.std.specs.Prelude.{◌≡◌};
ghost use Rattle.laws.specs.Table.{filled};
ghost use Rattle.memory.specs.Memory.{nametable_of};
ghost use Rattle.pages.specs.Pages.{prg_table, chr_table, told, tables_of, page_tables};
ghost use Rattle.entries.specs.Entries.{layout_for, chr_page};

use bandai_fcg::board::{BandaiFCG, Board};
use cart::Cart;
use entries::{chr, layout, prg_ram, prg_rom};
use image_layout::{MemoryLayout, Region};
use image_page::Page;
use memory::{Window, bank_starts, map_pages, map_starts, nametable_starts, repeat_nametables};
use refusals::Refusal;
use regs::Regs;
use validity::is_valid;

// The entries of both tables: a page's offset in the image, plus 0x80000000 if it may be written; 0 unmapped.
#[derive(Clone, Copy, PartialEq, Eq, Debug)]
pub struct PageTables {
    pub prg: [u32; 64],
    pub chr: [u32; 16],
}

impl PageTables {
    // The pages of a bank of PRG ROM.
    const PRG_PAGES: u32 = BandaiFCG::PRG_WINDOW as u32 / Page::SIZE as u32;

    // The pages of PRG RAM.
    const PRG_RAM_PAGES: u32 = BandaiFCG::PRG_RAM_SIZE as u32 / Page::SIZE as u32;

    // The pages of CHR where it has no banks.
    const CHR_RAM_PAGES: u32 = BandaiFCG::CHR_RAM_SIZE as u32 / Page::SIZE as u32;

    // The tables in which no page is mapped.
    pub const UNMAPPED: PageTables = PageTables {
        prg: [Page::UNMAPPED; 64],
        chr: [Page::UNMAPPED; 16],
    };
}

// A slot is 1 KiB: 24 is 0x6000, 32 is 0x8000, 48 is 0xC000.
fn prg_table(layout: MemoryLayout, cart: Cart, regs: Regs) -> [u32; 64]
    requires { layout ≡ layout_for cart }
    ensures { result ≡ prg_table cart regs }
{
    let mut pages = [Page::UNMAPPED; 64];
    map_pages(
        &mut pages,
        24,
        PageTables::PRG_RAM_PAGES,
        prg_ram(layout, cart, regs),
    );
    map_pages(
        &mut pages,
        32,
        PageTables::PRG_PAGES,
        prg_rom(layout, regs, regs.prg_page),
    );
    map_pages(
        &mut pages,
        48,
        PageTables::PRG_PAGES,
        prg_rom(layout, regs, 15),
    );
    pages
}

// The eight pages of CHR: one for each bank, or the first 8 KiB.
fn map_chr(pages: &mut [u32], layout: MemoryLayout, cart: Cart, regs: Regs)
    requires { layout ≡ layout_for cart }
    ensures { pages.new ≡ filled pages.old 0 (chr_page cart regs) 8 }
{
    if cart.banks_chr() {
        let starts = bank_starts(layout.chr, regs.chr_banks);
        map_starts(pages, 0, &starts, chr(layout));
    } else {
        map_pages(pages, 0, PageTables::CHR_RAM_PAGES, chr(layout));
    }
}

// The four nametables.
fn set_mirroring(pages: &mut [u32], ciram: Region, mirroring: u8)
    ensures { pages.new ≡ filled pages.old 8 (nametable_of ciram mirroring) 4 }
{
    let starts = nametable_starts(ciram, mirroring);
    map_starts(pages, 8, &starts, Window::first(ciram, true));
}

fn chr_table(layout: MemoryLayout, cart: Cart, regs: Regs) -> [u32; 16]
    requires { layout ≡ layout_for cart }
    ensures { result ≡ chr_table cart regs }
{
    let ciram = layout.ciram;
    let mut pages = [Page::UNMAPPED; 16];
    map_chr(&mut pages, layout, cart, regs);
    set_mirroring(&mut pages, ciram, regs.mirroring);
    repeat_nametables(&mut pages);
    pages
}

// Both tables of any cart and registers, valid or not, for the crates above.
pub fn update_banks(cart: Cart, regs: Regs) -> PageTables
    ensures { told (Ok result) ≡ tables_of cart regs }
{
    let layout = layout(cart);
    PageTables {
        prg: prg_table(layout, cart, regs),
        chr: chr_table(layout, cart, regs),
    }
}

// Both tables of a board.
pub fn page_tables(board: Board) -> Result<PageTables, Refusal>
    ensures { told result ≡ page_tables board }
{
    if is_valid(board) {
        Ok(update_banks(board.bandai.cart, board.bandai.regs))
    } else {
        Err(Refusal::BoardNotValid)
    }
}
