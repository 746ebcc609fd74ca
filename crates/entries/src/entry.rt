// One entry of a page table, for a view or a poke.
ghost use Rattle.std.specs.Prelude.{◌≡◌, ◌<◌};
ghost use Rattle.entries.specs.Entries.{layout_for, prg_entry, chr_page, chr_entry};

use crate::windows::{chr, chr_bank, layout, prg_ram, prg_rom};
use cart::Cart;
use image_layout::MemoryLayout;
use image_page::Page;
use memory::nametable_entry;
use regs::Regs;

// Returns entry k of the PRG table; 0 past its end.
pub fn prg_entry(cart: Cart, regs: Regs, k: u32) -> u32
    ensures { result ≡ prg_entry cart regs k }
{
    let layout = layout(cart);
    match k {
        0..=23 => Page::UNMAPPED,
        24..=31 => prg_ram(layout, cart, regs).entry(k - 24),
        32..=47 => prg_rom(layout, regs, regs.prg_page).entry(k - 32),
        48..=63 => prg_rom(layout, regs, 15).entry(k - 48),
        _ => Page::UNMAPPED,
    }
}

fn chr_page(layout: MemoryLayout, cart: Cart, regs: Regs, k: u32) -> u32
    requires { (layout ≡ layout_for cart) × (k < 8) }
    ensures { result ≡ chr_page cart regs k }
{
    if cart.banks_chr() {
        let banks = regs.chr_banks;
        chr_bank(layout, banks[k as usize]).entry(0)
    } else {
        chr(layout).entry(k)
    }
}

// Returns entry k of the CHR table.
pub fn chr_entry(cart: Cart, regs: Regs, k: u32) -> u32
    ensures { result ≡ chr_entry cart regs k }
{
    let layout = layout(cart);
    if k < 8 {
        chr_page(layout, cart, regs, k)
    } else {
        nametable_entry(layout.ciram, regs.mirroring, k - 8)
    }
}
