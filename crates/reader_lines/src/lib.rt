// The line of a module read.
#![tactic(auto)]

ghost use Rattle.output.specs.Put.{Puts};
ghost use Rattle.reader_lines.specs.ReaderLines.{module_line};

use bandai_fcg::board::Board;
use lines::put_pattern;
use output::Output;
use reader_calls::module_read;

// Writes the refusal or 0, the number of the module that the board's reader shows, the clocks spent in it, and its light.
#[tactic(auto, unfolding(crate::specs::ReaderLines::module_line))]
pub fn module_line(out: &mut Output, board: Board)
    ensures { Puts out.old out.new (module_line board) }
{
    let numbers = match module_read(board) {
        Ok(module) => [
            0,
            module.number,
            u64::from(module.spent),
            u64::from(module.light),
        ],
        Err(refusal) => [u64::from(refusal.number()), 0, 0, 0],
    };
    put_pattern(out, b"module # # # #\n", &numbers);
}
