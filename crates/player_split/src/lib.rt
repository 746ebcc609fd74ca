// The commands of a script that lend the image as two buffers. specs/PlayerSplit.antt defines each.
#![tactic(auto)]

ghost use Rattle.std.specs.Prelude.{◌≡◌};
ghost use Rattle.refusals.specs.Refusals.{number_of};
ghost use Rattle.output.specs.Put.{Puts};
ghost use Rattle.views.specs.Views.{is_chr};
ghost use Rattle.player_split.specs.PlayerSplit.{cut_refusal, split_line, view_split_of, cut_poke, poke_split_of, poked_split};

use bandai_fcg::board::Board;
use lines::{bytes_line, front, put_pattern};
use output::Output;
use player::Player;
use refusals::{Refusal, number_of};
use split_views::store_split;
use views::Table;

// Writes the bytes of the page that the PPU or the CPU sees in an image that is cut, or the refusal alone.
#[tactic(auto, using(split_views::proofs::Calls::split_of_flag, crate::proofs::Laws::cut_length, crate::proofs::Laws::front_cut, crate::proofs::Laws::rest), unfolding(crate::specs::PlayerSplit::split_line))]
fn split_line(out: &mut Output, board: Board, image: &[u8], table: Table, addr: u16, cut: usize)
    ensures { Puts out.old out.new (split_line board image.now (is_chr table) addr cut) }
{
    let (rom, ram) = image.split_at(cut.min(image.len()));
    match split_views::view_split(board, table, rom, ram, addr) {
        Ok(page) => bytes_line(out, b"view2 0", page),
        Err(refusal) => put_pattern(out, b"view2 #\n", &[u64::from(refusal.number())]),
    }
}

// A view of the player's image, which is the front of the lent one.
#[tactic(auto, unfolding(crate::specs::PlayerSplit::view_split_of))]
pub fn view_split(
    mut player: Player,
    table: Table,
    addr: u16,
    cut: usize,
    out: &mut [u8],
    image: &[u8],
) -> Player
    ensures { (result, out.new) ≡ view_split_of player (is_chr table) addr cut image.now out.old }
{
    let image = front(image, player.image);
    let mut output = Output {
        bytes: out,
        at: player.place,
    };
    split_line(&mut output, player.board, image, table, addr, cut);
    player.place = output.at;
    player
}

// Stores a byte for the PPU or the CPU in an image that is cut.
#[tactic(auto, using(split_views::proofs::Calls::store_of_flag, split_views::proofs::SplitViewsLaws::prg_stored_lem, split_views::proofs::SplitViewsLaws::chr_stored_lem, crate::proofs::Laws::cut_length, crate::proofs::Laws::front_cut, crate::proofs::Laws::lent_rest, crate::proofs::Laws::nothing_left))]
fn store_cut(
    board: Board,
    image: &mut [u8],
    table: Table,
    addr: u16,
    value: u8,
    cut: usize,
) -> Result<(), Refusal>
    ensures number { number_of result ≡ cut_refusal board image.old cut }
    ensures stored { image.new ≡ cut_poke board image.old (is_chr table) addr value cut }
{
    let n = cut.min(image.len());
    store_split(board, table, n, &mut image[n..], addr, value)
}

// A poke into the player's image, which is the front of the lent one; nothing where that is shorter.
#[tactic(auto, unfolding(crate::specs::PlayerSplit::poke_split_of, crate::specs::PlayerSplit::poked_split))]
pub fn poke_split(
    player: Player,
    table: Table,
    addr: u16,
    value: u8,
    cut: usize,
    out: &mut [u8],
    image: &mut [u8],
) -> Player
    ensures { ((result, out.new) ≡ poke_split_of player cut image.old out.old) × (image.new ≡ poked_split player (is_chr table) addr value cut image.old) }
{
    let n = player.image;
    if n > image.len() {
        return player;
    }
    let outcome = store_cut(player.board, &mut image[..n], table, addr, value, cut);
    let number = u64::from(number_of(&outcome));
    player.answer(out, b"poke2 #\n", &[number])
}
