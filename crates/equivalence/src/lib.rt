// Demand 3 of the board, as a theorem (specs/Theorem.antt), and the checkpoint that its call lists hold.
#![tactic(auto)]

ghost use Rattle.std.specs.Prelude.{◌≡◌};
ghost use Rattle.runs.specs.Checkpoint.{checkpoint};
ghost use Rattle.validity.specs.Valid.{valid_board};
ghost use Rattle.state_file.specs.StateFile.{board_file};
ghost use Rattle.equivalence.specs.BoardMachine.{checkpoint_answer};

use bandai_fcg::board::Board;
use refusals::Refusal;
use state_bodies::first;

// What a checkpoint answers: the refusal, if there is one, and the board that is left. It is no `Result`, since a refusal leaves a board too.
#[derive(Clone, Copy)]
pub struct CheckpointEnd {
    pub board: Board,
    pub refusal: Option<Refusal>,
}

// Writes the state file, and reads back just the bytes written. A write that is refused reads nothing and leaves the board as it was.
pub fn checkpoint(board: Board, buffer: &mut [u8]) -> CheckpointEnd
    ensures { checkpoint_answer result buffer.new ≡ checkpoint valid_board board_file board buffer.old }
{
    let length = match state_file::write(board, buffer) {
        Ok(length) => length,
        Err(refusal) => {
            return CheckpointEnd {
                board,
                refusal: Some(refusal),
            };
        }
    };
    match state_file::read(first(buffer, length)) {
        Ok(board) => CheckpointEnd {
            board,
            refusal: None,
        },
        Err(refusal) => CheckpointEnd {
            board: Board::empty(),
            refusal: Some(refusal),
        },
    }
}
