// Views of an image and pokes into it. A part of a slice cannot be handed to Rust or C: a view is its offset.
// C has a call for each table, and the refusal's number beside the value.
ghost use Rattle.std.specs.Prelude.{◌≡◌, length};
ghost use Rattle.entries.specs.Entries.{layout_for};
ghost use Rattle.views.specs.Views.{view_refusal, entry_at, prg_poke, chr_poke};
ghost use Rattle.board_codes.specs.Codes.{board_in};
ghost use Rattle.molbitak_views.specs.Views.{view_on, prg_view_on, chr_view_on};

use bandai_fcg::board::Board;
use board_codes::board::BoardC;
use cart::Cart;
use entries::layout;
use refusals::number_of;
use views::{Table, page_at, poke};

// The result of a view: where the 1,024 bytes of a page start in the image, and the refusal, or 0.
#[repr(C)]
#[derive(Clone, Copy)]
pub struct ViewC {
    pub offset: usize,
    pub refusal: u8,
}

// Returns the length in bytes of a cart's image.
#[unsafe(no_mangle)]
pub extern "C" fn molbitak_image_len(cart: Cart) -> u64
    ensures { result ≡ (layout_for cart).len }
{
    let layout = layout(cart);
    layout.len
}

fn view_on(board: Board, table: Table, len: usize, addr: u16) -> ViewC
    ensures { result ≡ view_on board len (entry_at table board addr) }
{
    match page_at(board, table, len, addr) {
        Ok(page) => ViewC {
            offset: page.offset(),
            refusal: 0,
        },
        Err(refusal) => ViewC {
            offset: 0,
            refusal: refusal.number(),
        },
    }
}

// Returns where the page lies that the CPU sees at an address.
#[unsafe(no_mangle)]
#[tactic(auto, unfolding(crate::specs::Views::prg_view_on))]
pub extern "C" fn molbitak_prg_view(b: BoardC, len: usize, addr: u16) -> ViewC
    ensures { result ≡ prg_view_on b len addr }
{
    view_on(b.checked(), Table::Prg, len, addr)
}

// Returns where the page lies that the PPU sees at an address.
#[unsafe(no_mangle)]
#[tactic(auto, unfolding(crate::specs::Views::chr_view_on))]
pub extern "C" fn molbitak_chr_view(b: BoardC, len: usize, addr: u16) -> ViewC
    ensures { result ≡ chr_view_on b len addr }
{
    view_on(b.checked(), Table::Chr, len, addr)
}

// Stores a byte for the CPU and returns the refusal, or 0.
#[unsafe(no_mangle)]
pub extern "C" fn molbitak_prg_poke(b: BoardC, image: &mut [u8], addr: u16, value: u8) -> u8
    ensures { (result ≡ view_refusal (board_in b) (length image.old)) × (image.new ≡ prg_poke (board_in b) image.old addr value) }
{
    number_of(&poke(b.checked(), Table::Prg, image, addr, value))
}

// Stores a byte for the PPU and returns the refusal, or 0.
#[unsafe(no_mangle)]
pub extern "C" fn molbitak_chr_poke(b: BoardC, image: &mut [u8], addr: u16, value: u8) -> u8
    ensures { (result ≡ view_refusal (board_in b) (length image.old)) × (image.new ≡ chr_poke (board_in b) image.old addr value) }
{
    number_of(&poke(b.checked(), Table::Chr, image, addr, value))
}
