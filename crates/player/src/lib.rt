// What a script has led to, and what each command that changes its board does to it. specs/Player.antt defines each.
#![tactic(auto)]

mod board;

ghost use Rattle.std.specs.Prelude.{◌≡◌};
ghost use Rattle.lines.specs.Lines.{with_numbers};
ghost use Rattle.player.specs.Player.{new_player, uncounted, placed};

use bandai_fcg::board::Board;
pub use board::{counts, file_line, fit, report, resume, stop};
use lines::put_pattern;
use output::Output;

// The board; the records run and refused since they were last counted; the lines read; the next place of the output; the image's length.
#[derive(Clone, Copy)]
pub struct Player {
    pub board: Board,
    pub records: u64,
    pub refused: u64,
    pub lines: u64,
    pub place: usize,
    pub image: usize,
}

impl Player {
    // Returns a player with the empty board.
    #[tactic(auto, unfolding(crate::specs::Player::new_player))]
    pub fn new() -> Player
        ensures { result ≡ new_player }
    {
        Player {
            board: Board::empty(),
            records: 0,
            refused: 0,
            lines: 0,
            place: 0,
            image: 0,
        }
    }

    // A fresh count of records.
    pub fn uncounted(mut self) -> Player
        ensures { result ≡ uncounted self }
    {
        self.records = 0;
        self.refused = 0;
        self
    }

    // Writes a pattern with its numbers, from the player's place on.
    pub fn answer(mut self, out: &mut [u8], pattern: &[u8], numbers: &[u64]) -> Player
        ensures { (result, out.new) ≡ placed self out.old (with_numbers pattern.now numbers.now) }
    {
        let mut output = Output {
            bytes: out,
            at: self.place,
        };
        put_pattern(&mut output, pattern, numbers);
        self.place = output.at;
        self
    }
}
