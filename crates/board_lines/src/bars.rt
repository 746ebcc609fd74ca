// The modules that a board's reader shows.
ghost use Rattle.output.specs.Put.{Puts};
ghost use Rattle.lines.specs.Lines.{joined};
ghost use Rattle.board_lines.specs.BoardLines.{bar_of, bars_line};

use bandai_fcg::board::Board;
use lines::front;
use output::Output;

// Writes a module: `#` dark, `.` light.
fn put_bar(out: &mut Output, m: u8)
    ensures { Puts out.old out.new (bar_of m) }
{
    out.put_all(if m == 0 { b"#" } else { b"." });
}

// Writes modules, one after the other.
fn put_bars(out: &mut Output, modules: &[u8])
    ensures { Puts out.old out.new (joined bar_of modules.now) }
{
    for module in modules {
        put_bar(out, *module);
    }
}

// Writes the modules of the board's reader as a line, `#` dark and `.` light.
#[tactic(auto, using(lines::proofs::Turns::put_end_line), unfolding(crate::specs::BoardLines::bars_line))]
pub fn bars_line(out: &mut Output, board: Board)
    ensures { Puts out.old out.new (bars_line board) }
{
    let reader = board.bandai.barcode_reader;
    if reader.module_count == 0 {
        out.put_all(b"bars\n");
    } else {
        out.put_all(b"bars ");
        put_bars(out, front(&board.modules, usize::from(reader.module_count)));
        out.put(b'\n');
    }
}
