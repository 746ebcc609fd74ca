// The lines of `pages` and `view`.
ghost use Rattle.output.specs.Put.{Puts};
ghost use Rattle.views.specs.Views.{is_chr};
ghost use Rattle.image.specs.Image.{page_lines, view_line};

use bandai_fcg::board::Board;
use lines::{bytes_line, put_pattern, words_line};
use output::Output;
use pages::{PageTables, page_tables};
use views::{Table, view};

// Writes both page tables; zeros of a board that is not valid.
pub fn page_lines(out: &mut Output, board: Board)
    ensures { Puts out.old out.new (page_lines board) }
{
    let tables = page_tables(board).unwrap_or(PageTables::UNMAPPED);
    words_line(out, b"prg", &tables.prg);
    words_line(out, b"chr", &tables.chr);
}

// Writes the bytes of the page that the PPU or the CPU sees at an address, or the refusal alone.
#[tactic(auto, using(views::proofs::Calls::view_of_flag), unfolding(crate::specs::Image::view_line))]
pub fn view_line(out: &mut Output, board: Board, image: &[u8], table: Table, addr: u16)
    ensures { Puts out.old out.new (view_line board image.now (is_chr table) addr) }
{
    match view(board, table, image, addr) {
        Ok(page) => bytes_line(out, b"view 0", page),
        Err(refusal) => put_pattern(out, b"view #\n", &[u64::from(refusal.number())]),
    }
}
