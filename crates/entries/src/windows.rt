// The windows that a board shows of its image. What a window needs is found here, once for all its pages.
ghost use Rattle.std.specs.Prelude.{◌≡◌};
ghost use Rattle.entries.specs.Entries.{layout_for, ram_shown, with_high, rom_window, chr_window};

use bandai_fcg::board::BandaiFCG;
use cart::Cart;
use image_layout::{MemoryLayout, Sizes};
use memory::{Window, banks_of_1k, banks_of_16k};
use regs::Regs;

// Returns the layout of a cart's image.
pub fn layout(cart: Cart) -> MemoryLayout
    ensures { result ≡ layout_for cart }
{
    MemoryLayout::new(Sizes {
        prg_rom: cart.prg_rom_size,
        chr_rom: cart.chr_rom_size,
        chr_ram: cart.chr_ram_size,
        prg_ram: cart.prg_ram_size,
        battery_ext: cart.battery_ext_size,
        ciram: cart.ciram_size,
        ex_ram: cart.ex_ram_size,
    })
}

// Returns PRG RAM if it is mapped, else a window of nothing.
pub fn prg_ram(layout: MemoryLayout, cart: Cart, regs: Regs) -> Window
    ensures { result ≡ ram_shown layout cart regs }
{
    if regs.ram_mapped(cart) {
        Window::first(layout.prg_ram, true)
    } else {
        Window {
            start: 0,
            len: 0,
            base: 0,
            writable: false,
        }
    }
}

// A bank ORed with the high bank.
fn with_high(regs: Regs, bank: u8) -> u8
    ensures { result ≡ with_high regs bank }
{
    bank | regs.prg_bank_select
}

// Returns a bank of PRG ROM.
pub fn prg_rom(layout: MemoryLayout, regs: Regs, bank: u8) -> Window
    ensures { result ≡ rom_window layout regs bank }
{
    Window::new(
        layout.prg_rom,
        false,
        BandaiFCG::PRG_WINDOW,
        banks_of_16k(layout.prg_rom),
        with_high(regs, bank),
    )
}

// Returns the first 8 KiB of CHR.
pub fn chr(layout: MemoryLayout) -> Window
    ensures { result ≡ chr_window layout 8192 0 }
{
    Window::first(layout.chr, layout.chr_writable)
}

// Returns a bank of CHR.
pub fn chr_bank(layout: MemoryLayout, bank: u8) -> Window
    ensures { result ≡ chr_window layout 1024 bank }
{
    Window::new(
        layout.chr,
        layout.chr_writable,
        BandaiFCG::CHR_ROM_WINDOW,
        banks_of_1k(layout.chr),
        bank,
    )
}
