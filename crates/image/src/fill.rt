// The image: its length, its bytes, and pokes into it.
ghost use Rattle.std.specs.Prelude.{◌≡◌, length};
ghost use Rattle.laws.specs.Table.{filled};
ghost use Rattle.refusals.specs.Refusals.{number_of};
ghost use Rattle.views.specs.Views.{view_refusal, poke_in};
ghost use Rattle.image.specs.Image.{least, image_length, image_byte};

use bandai_fcg::board::Board;
use entries::layout;
use refusals::Refusal;
use validity::is_valid;
use views::{Table, poke};

// The most bytes that an image has here.
pub const IMAGE_LIMIT: usize = 1048576;

// The length of a board's image, as much of it as is kept; 0 where the board is not valid.
#[tactic(auto, using(crate::proofs::Least::least_min), unfolding(crate::specs::Image::image_length))]
pub fn image_length(board: Board) -> usize
    ensures { result ≡ image_length board }
{
    if is_valid(board) {
        let layout = layout(board.bandai.cart);
        (layout.len as usize).min(IMAGE_LIMIT)
    } else {
        0
    }
}

// The byte at an offset. The product needs the offset's low 21 bits only.
fn image_byte(offset: usize) -> u8
    ensures { result ≡ image_byte offset }
{
    if offset < 1024 {
        0
    } else {
        (offset as u64 % 2097152 * 2654435761 / 8192 % 256) as u8
    }
}

// Makes an image anew, at the front of a lent buffer.
#[tactic(auto, using(crate::proofs::Least::least_min, laws::proofs::TableLaws::filled_none))]
pub fn fill_image(image: &mut [u8], count: usize)
    ensures { image.new ≡ filled image.old 0 image_byte (least count (length image.old)) }
{
    // By index: `iter_mut` would fill a part that a function of its own is lent, and a law would join it with the rest. That is no plainer.
    for i in 0..count.min(image.len()) {
        image[i] = image_byte(i);
    }
}

// A byte stored by the PPU or by the CPU.
pub fn poke_image(
    board: Board,
    image: &mut [u8],
    table: Table,
    addr: u16,
    value: u8,
) -> Result<(), Refusal>
    ensures number { number_of result ≡ view_refusal board (length image.old) }
    ensures stored { image.new ≡ poke_in table board image.old addr value }
{
    poke(board, table, image, addr, value)
}
