// The boundary's views and pokes of an image that is lent as two buffers. A part of a slice cannot be handed to Rust or C: a view is its
// offset in one of the two. C has a call for each table, and the refusal's number beside the value. specs/SplitOn.antt defines it.
#![tactic(auto)]

ghost use Rattle.std.specs.Prelude.{◌≡◌, length};
ghost use Rattle.entries.specs.Entries.{layout_for};
ghost use Rattle.views.specs.Views.{entry_at};
ghost use Rattle.split_views.specs.SplitViews.{split_refusal};
ghost use Rattle.split_views.specs.Parts.{prg_stored, chr_stored};
ghost use Rattle.board_codes.specs.Codes.{board_in};
ghost use Rattle.molbitak_split.specs.SplitOn.{split_on, prg_split_on, chr_split_on};

use bandai_fcg::board::Board;
use board_codes::board::BoardC;
use cart::Cart;
use entries::layout;
use refusals::number_of;
use split_views::{Place, place_at, store_split};
use views::Table;

// The result of a view: where the 1,024 bytes of a page start in their buffer, whether that is the second, and the refusal, or 0.
#[repr(C)]
#[derive(Clone, Copy)]
pub struct SplitViewC {
    pub offset: usize,
    pub in_ram: bool,
    pub refusal: u8,
}

// Returns the length in bytes of the first buffer: the image of a cart up to what can be written.
#[unsafe(no_mangle)]
pub extern "C" fn molbitak_ram_start(cart: Cart) -> u64
    ensures { result ≡ (layout_for cart).ram_start }
{
    let layout = layout(cart);
    layout.ram_start
}

fn split_on(board: Board, table: Table, rom_len: usize, ram_len: usize, addr: u16) -> SplitViewC
    ensures { result ≡ split_on board rom_len ram_len (entry_at table board addr) }
{
    match place_at(board, table, rom_len, ram_len, addr) {
        Ok(Place::Rom(offset)) => SplitViewC {
            offset,
            in_ram: false,
            refusal: 0,
        },
        Ok(Place::Ram(offset)) => SplitViewC {
            offset,
            in_ram: true,
            refusal: 0,
        },
        Err(refusal) => SplitViewC {
            offset: 0,
            in_ram: false,
            refusal: refusal.number(),
        },
    }
}

// Returns where the page lies that the CPU sees at an address.
#[unsafe(no_mangle)]
#[tactic(auto, unfolding(crate::specs::SplitOn::prg_split_on))]
pub extern "C" fn molbitak_prg_view_split(
    b: BoardC,
    rom_len: usize,
    ram_len: usize,
    addr: u16,
) -> SplitViewC
    ensures { result ≡ prg_split_on b rom_len ram_len addr }
{
    split_on(b.checked(), Table::Prg, rom_len, ram_len, addr)
}

// Returns where the page lies that the PPU sees at an address.
#[unsafe(no_mangle)]
#[tactic(auto, unfolding(crate::specs::SplitOn::chr_split_on))]
pub extern "C" fn molbitak_chr_view_split(
    b: BoardC,
    rom_len: usize,
    ram_len: usize,
    addr: u16,
) -> SplitViewC
    ensures { result ≡ chr_split_on b rom_len ram_len addr }
{
    split_on(b.checked(), Table::Chr, rom_len, ram_len, addr)
}

// Stores a byte for the CPU in the second buffer and returns the refusal, or 0. The first is known by its length.
#[unsafe(no_mangle)]
pub extern "C" fn molbitak_prg_poke_split(
    b: BoardC,
    rom_len: usize,
    ram: &mut [u8],
    addr: u16,
    value: u8,
) -> u8
    ensures { (result ≡ split_refusal (board_in b) rom_len (length ram.old)) × (ram.new ≡ prg_stored (board_in b) rom_len ram.old addr value) }
{
    number_of(&store_split(b.checked(), Table::Prg, rom_len, ram, addr, value))
}

// Stores a byte for the PPU in the second buffer and returns the refusal, or 0. The first is known by its length.
#[unsafe(no_mangle)]
pub extern "C" fn molbitak_chr_poke_split(
    b: BoardC,
    rom_len: usize,
    ram: &mut [u8],
    addr: u16,
    value: u8,
) -> u8
    ensures { (result ≡ split_refusal (board_in b) rom_len (length ram.old)) × (ram.new ≡ chr_stored (board_in b) rom_len ram.old addr value) }
{
    number_of(&store_split(b.checked(), Table::Chr, rom_len, ram, addr, value))
}
