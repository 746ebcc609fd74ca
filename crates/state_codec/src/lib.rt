// The state file's bytes: the file of a board, and the board of any bytes. Nothing is refused here; crate state_file tests and compares.
#![tactic(auto)]

pub mod decode;
pub mod encode;

ghost use Rattle.std.specs.Prelude.{◌≡◌};
ghost use Rattle.state_codec.specs.Encode.{file_length, length_answer};

use bandai_fcg::board::Board;
use encode::encoded_length;
use refusals::Refusal;
use validity::is_valid;

// Returns how many bytes the file of a board has. Refuses a board that is not valid.
pub fn file_length(board: Board) -> Result<usize, Refusal>
    ensures { length_answer result ≡ file_length board }
{
    if is_valid(board) {
        Ok(encoded_length(board) as usize)
    } else {
        Err(Refusal::BoardNotValid)
    }
}
