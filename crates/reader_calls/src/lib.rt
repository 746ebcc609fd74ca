// The checked module read. It is no event, and changes nothing.
#![tactic(auto)]

ghost use Rattle.std.specs.Prelude.{◌≡◌};
ghost use Rattle.reader_calls.specs.ReaderCalls.{module_told_of, as_told};

use bandai_fcg::board::Board;
use bandai_fcg::module_read::ModuleRead;
use refusals::Refusal;
use validity::is_valid;

// Returns which module the board's reader shows, the clocks spent in it, 0 to 999, and its light, 8 or 0. Without a reader all three are 0.
// Refuses a board that is not valid.
#[tactic(auto, unfolding(crate::specs::ReaderCalls::module_told_of))]
pub fn module_read(board: Board) -> Result<ModuleRead, Refusal>
    ensures { as_told result ≡ module_told_of board }
{
    if is_valid(board) {
        Ok(board.bandai.module_read(&board.modules))
    } else {
        Err(Refusal::BoardNotValid)
    }
}
