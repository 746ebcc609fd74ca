// Views of a lent image and pokes into it.
ghost use Rattle.std.specs.Prelude.{◌≡◌, ◌%◌, length, IfOk};
ghost use Rattle.refusals.specs.Refusals.{number_of};
ghost use Rattle.views.specs.Views.{view_refusal, entry_at, view_in, poke_in};

use super::Table;
use bandai_fcg::board::Board;
use entries::{chr_entry, layout, prg_entry};
use image_page::{Page, page_part};
use refusals::Refusal;
use validity::is_valid;

// The bytes that the PPU addresses: the sixteen pages of the CHR table.
const CHR_SPACE: u64 = 16 * Page::SIZE;

// Tells whether a view of an image of `len` bytes is refused, or a poke into it.
#[tactic(auto, unfolding(crate::specs::Views::view_refusal))]
pub fn check_view(board: Board, len: usize) -> Result<(), Refusal>
    ensures { number_of result ≡ view_refusal board len }
{
    if !is_valid(board) {
        return Err(Refusal::BoardNotValid);
    }
    let layout = layout(board.bandai.cart);
    if len as u64 != layout.len {
        return Err(Refusal::ImageLength);
    }
    Ok(())
}

// Returns the entry of the page that a table shows at an address. Those of the PPU count modulo 16,384. Tests no validity.
pub fn entry_at(board: Board, table: Table, addr: u16) -> u32
    ensures { result ≡ entry_at table board addr }
{
    match table {
        Table::Prg => {
            let slot = u64::from(addr) / Page::SIZE;
            prg_entry(board.bandai.cart, board.bandai.regs, slot as u32)
        }
        Table::Chr => {
            let slot = u64::from(addr) % CHR_SPACE / Page::SIZE;
            chr_entry(board.bandai.cart, board.bandai.regs, slot as u32)
        }
    }
}

// Returns the place of an address in its page.
pub fn place(addr: u16) -> usize
    ensures { result ≡ addr % 1024 }
{
    usize::from(addr) % Page::SIZE as usize
}

// Returns the page that a table shows at an address, for an image of `len` bytes.
pub fn page_at(board: Board, table: Table, len: usize, addr: u16) -> Result<Page, Refusal>
    ensures number { number_of result ≡ view_refusal board len }
    ensures page { IfOk result (λ page. page.0 ≡ entry_at table board addr) }
{
    check_view(board, len)?;
    Ok(Page(entry_at(board, table, addr)))
}

// Returns the bytes of the page that a table shows at an address.
pub fn view(board: Board, table: Table, image: &[u8], addr: u16) -> Result<&[u8], Refusal>
    ensures number { number_of result ≡ view_refusal board (length image.now) }
    ensures page { IfOk result (λ page. page.now ≡ view_in table board image.now addr) }
{
    let len = image.len();
    let page = page_at(board, table, len, addr)?;
    Ok(page_part(image, page.offset()))
}

// Stores a byte at an address of the page that a table shows there. A read-only page leaves the image unaltered.
pub fn poke(
    board: Board,
    table: Table,
    image: &mut [u8],
    addr: u16,
    value: u8,
) -> Result<(), Refusal>
    ensures number { number_of result ≡ view_refusal board (length image.old) }
    ensures stored { image.new ≡ poke_in table board image.old addr value }
{
    let page = page_at(board, table, image.len(), addr)?;
    if page.is_writable() {
        image_page::poke(image, page.offset(), place(addr), value);
    }
    Ok(())
}
