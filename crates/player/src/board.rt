// The commands that change the board, and a faulty line.
ghost use Rattle.std.specs.Prelude.{◌≡◌};
ghost use Rattle.output.specs.Put.{Puts};
ghost use Rattle.state_file.specs.StateFile.{read_answer};
ghost use Rattle.player.specs.Player.{fit_of, counts_of, stop_of, file_line, resumed_of, resume_of, report_of};

use crate::Player;
use bandai_fcg::board::{BandaiFCG, Board};
use cart::Cart;
use commands::Command;
use equivalence::checkpoint;
use lines::{bytes_line, fault_line, front};
use output::Output;
use refusals::{Refusal, number_of};
use script::bytes_in;

// Room for any state file, and for the bytes of any line.
const FILE_ROOM: usize = 700;

const LINE_ROOM: usize = 2048;

// Fits a board from the numbers of a line. A refused description gives the empty board.
#[tactic(auto, unfolding(crate::specs::Player::fit_of))]
pub fn fit(player: Player, v: [u64; Command::NUMBERS], out: &mut [u8]) -> Player
    ensures { (result, out.new) ≡ fit_of player v out.old }
{
    let outcome = BandaiFCG::load(Cart::of_words(&v));
    let refusal = number_of(&outcome);
    let mut p = player.uncounted();
    p.board = outcome.unwrap_or(Board::empty());
    p.answer(out, b"fit #\n", &[u64::from(refusal)])
}

// Writes how many records ran and were refused, and starts anew.
pub fn counts(player: Player, out: &mut [u8]) -> Player
    ensures { (result, out.new) ≡ counts_of player out.old }
{
    let fresh = player.uncounted();
    fresh.answer(out, b"counts # #\n", &[player.records, player.refused])
}

// Writes the state file and goes on from the state read back.
#[tactic(auto, unfolding(crate::specs::Player::stop_of, laws::specs::Lists::blank))]
pub fn stop(player: Player, out: &mut [u8]) -> Player
    ensures { (result, out.new) ≡ stop_of player out.old }
{
    let mut p = player;
    let mut file = [0; FILE_ROOM];
    let length = state_file::file_length(p.board).unwrap_or(0);
    let end = checkpoint(p.board, &mut file);
    let refusal = end.refusal.map_or(0, |refusal| refusal.number());
    p.board = end.board;
    p.answer(out, b"stop # #\n", &[refusal as u64, length as u64])
}

// Writes the bytes of the board's state file.
#[tactic(auto, unfolding(crate::specs::Player::file_line, laws::specs::Lists::blank))]
pub fn file_line(out: &mut Output, board: Board)
    ensures { Puts out.old out.new (file_line board) }
{
    let mut file = [0; FILE_ROOM];
    let length = state_file::write(board, &mut file).unwrap_or(0);
    bytes_line(out, b"file", front(&file, length));
}

// What the reader makes of a line's file.
#[tactic(auto, unfolding(crate::specs::Player::resumed_of, laws::specs::Lists::blank))]
fn resumed(line: &[u8]) -> Result<Board, Refusal>
    ensures { read_answer result ≡ resumed_of line.now }
{
    let mut file = [0; LINE_ROOM];
    let length = bytes_in(line, &mut file);
    state_file::read(front(&file, length))
}

// Goes on from the state file that a line holds. A refused file leaves the board as it was.
#[tactic(auto, using(state_file::proofs::Numbers::some_number), unfolding(crate::specs::Player::resume_of))]
pub fn resume(player: Player, line: &[u8], out: &mut [u8]) -> Player
    ensures { (result, out.new) ≡ resume_of player line.now out.old }
{
    let outcome = resumed(line);
    let number = number_of(&outcome);
    let mut p = player;
    if let Ok(board) = outcome {
        p = p.uncounted();
        p.board = board;
    }
    p.answer(out, b"resume #\n", &[number as u64])
}

// Writes the error message for a bad script line.
#[tactic(auto, unfolding(crate::specs::Player::report_of))]
pub fn report(player: Player, fault: u8, out: &mut [u8]) -> Player
    ensures { (result, out.new) ≡ report_of player fault out.old }
{
    let mut p = player;
    let mut output = Output {
        bytes: out,
        at: p.place,
    };
    fault_line(&mut output, p.lines, fault);
    p.place = output.at;
    p
}
