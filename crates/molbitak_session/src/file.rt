// The state file.
ghost use Rattle.std.specs.Prelude.{◌≡◌};
ghost use Rattle.runs.specs.Checkpoint.{write};
ghost use Rattle.validity.specs.Valid.{valid_board};
ghost use Rattle.state_file.specs.StateFile.{board_file};
ghost use Rattle.board_codes.specs.Codes.{board_in};
ghost use Rattle.molbitak_session.specs.Sessions.{written_of, read_c};

use bandai_fcg::board::Board;
use board_codes::board::BoardC;
use refusals::number_of;
use state_file::{read, write};

// What the writer answers: the refusal or 0, and how many bytes were written. It keeps a number, since it crosses to C.
#[repr(C)]
#[derive(Clone, Copy)]
pub struct Written {
    pub length: usize,
    pub refusal: u8,
}

// What the reader answers, its board as codes; where the file is refused, the empty one. It keeps a number, since it crosses to C.
#[repr(C)]
#[derive(Clone, Copy)]
pub struct ReadBackC {
    pub refusal: u8,
    pub board: BoardC,
}

// Writes the state file to the front of a lent buffer and leaves the rest.
#[unsafe(no_mangle)]
#[tactic(auto, unfolding(crate::specs::Sessions::written_of))]
pub extern "C" fn molbitak_state_write(b: BoardC, buffer: &mut [u8]) -> Written
    ensures { (result ≡ written_of (write valid_board board_file (board_in b) buffer.old)) × (buffer.new ≡ (write valid_board board_file (board_in b) buffer.old).buffer) }
{
    let outcome = write(b.checked(), buffer);
    Written {
        length: outcome.unwrap_or(0),
        refusal: number_of(&outcome),
    }
}

// Reads a state file.
#[unsafe(no_mangle)]
#[tactic(auto, unfolding(crate::specs::Sessions::read_c))]
pub extern "C" fn molbitak_state_read(file: &[u8]) -> ReadBackC
    ensures { result ≡ read_c file.now }
{
    let back = read(file);
    ReadBackC {
        refusal: number_of(&back),
        board: BoardC::from(back.unwrap_or_else(|_| Board::empty())),
    }
}
