// Views of two lent buffers and pokes into the second. The first holds the image up to `ram_start`, the second the rest.
ghost use Rattle.std.specs.Prelude.{◌≡◌, ◌++◌, length, IfOk};
ghost use Rattle.refusals.specs.Refusals.{number_of};
ghost use Rattle.views.specs.Views.{entry_at};
ghost use Rattle.split_views.specs.SplitViews.{rom_len, split_refusal, split_in, split_poke_in};
ghost use Rattle.split_views.specs.Parts.{place_of, split_store_in};

use super::Place;
use bandai_fcg::board::Board;
use entries::layout;
use image_page::{Page, page_part, poke};
use refusals::Refusal;
use validity::is_valid;
use views::{Table, entry_at, place};

// Tells whether a view of two buffers of these lengths is refused, or a poke into them.
pub fn check_split(board: Board, rom_len: usize, ram_len: usize) -> Result<(), Refusal>
    ensures { number_of result ≡ split_refusal board rom_len ram_len }
{
    if !is_valid(board) {
        return Err(Refusal::BoardNotValid);
    }
    let layout = layout(board.bandai.cart);
    let rest = layout.len - layout.ram_start;
    if rom_len as u64 != layout.ram_start || ram_len as u64 != rest {
        return Err(Refusal::ImageLength);
    }
    Ok(())
}

// Returns where the second buffer starts in the image. Tests no validity.
pub fn ram_start(board: Board) -> usize
    ensures { result ≡ rom_len board }
{
    let layout = layout(board.bandai.cart);
    layout.ram_start as usize
}

// Where a page starts, in the buffer that its offset falls in.
fn place_of(board: Board, page: Page) -> Place
    ensures { result ≡ place_of board page.0 }
{
    let offset = page.offset();
    let start = ram_start(board);
    if offset < start {
        Place::Rom(offset)
    } else {
        Place::Ram(offset - start)
    }
}

// Returns where the page starts that a table shows at an address, for two buffers of these lengths.
pub fn place_at(
    board: Board,
    table: Table,
    rom_len: usize,
    ram_len: usize,
    addr: u16,
) -> Result<Place, Refusal>
    ensures number { number_of result ≡ split_refusal board rom_len ram_len }
    ensures place { IfOk result (λ place. place ≡ place_of board (entry_at table board addr)) }
{
    check_split(board, rom_len, ram_len)?;
    Ok(place_of(board, Page(entry_at(board, table, addr))))
}

// Returns the bytes of the page that a table shows at an address, a part of one of the two buffers.
pub fn view_split<'a>(
    board: Board,
    table: Table,
    rom: &'a [u8],
    ram: &'a [u8],
    addr: u16,
) -> Result<&'a [u8], Refusal>
    ensures number { number_of result ≡ split_refusal board (length rom.now) (length ram.now) }
    ensures page { IfOk result (λ page. page.now ≡ split_in table board rom.now ram.now addr) }
{
    match place_at(board, table, rom.len(), ram.len(), addr)? {
        Place::Rom(offset) => Ok(page_part(rom, offset)),
        Place::Ram(offset) => Ok(page_part(ram, offset)),
    }
}

// Stores a byte at an address of the page that a table shows there, if that lies in the second buffer and may be written. The first is
// known by its length.
pub fn store_split(
    board: Board,
    table: Table,
    rom_len: usize,
    ram: &mut [u8],
    addr: u16,
    value: u8,
) -> Result<(), Refusal>
    ensures number { number_of result ≡ split_refusal board rom_len (length ram.old) }
    ensures stored { ram.new ≡ split_store_in table board rom_len ram.old addr value }
{
    check_split(board, rom_len, ram.len())?;
    let page = Page(entry_at(board, table, addr));
    if let Place::Ram(offset) = place_of(board, page) {
        if page.is_writable() {
            poke(ram, offset, place(addr), value);
        }
    }
    Ok(())
}

// Stores a byte at an address of the page that a table shows there. A read-only page leaves both buffers unaltered.
pub fn poke_split(
    board: Board,
    table: Table,
    rom: &[u8],
    ram: &mut [u8],
    addr: u16,
    value: u8,
) -> Result<(), Refusal>
    ensures number { number_of result ≡ split_refusal board (length rom.now) (length ram.old) }
    ensures joined { rom.now ++ ram.new ≡ split_poke_in table board rom.now ram.old addr value }
{
    store_split(board, table, rom.len(), ram, addr, value)
}
