// The state file: a board written into lent bytes, and read from any bytes. The reader takes just the files that the writer makes, and those
// of the old form: it decodes whatever the bytes are, tests the board, encodes it again in the same form and compares.
#![tactic(auto)]

ghost use Rattle.std.specs.Prelude.{◌≡◌};
ghost use Rattle.runs.specs.Checkpoint.{write};
ghost use Rattle.validity.specs.Valid.{valid_board};
ghost use Rattle.state_file.specs.StateFile.{board_file, write_answer, read_of, read_answer};

use bandai_fcg::board::Board;
use refusals::Refusal;
use state_bodies::FileForm;
use state_codec::decode::{decode, file_form};
use state_codec::encode::encode;
pub use state_codec::file_length;
use validity::is_valid;

// Writes the file of a board to the front of a lent buffer and leaves the rest. Returns how many bytes the file has. Refuses a board that
// is not valid, and then a buffer that is too short, which is not touched.
pub fn write(board: Board, buffer: &mut [u8]) -> Result<usize, Refusal>
    ensures { write_answer result buffer.new ≡ write valid_board board_file board buffer.old }
{
    if !is_valid(board) {
        return Err(Refusal::BoardNotValid);
    }
    let file = encode(FileForm::Current, board);
    let bytes = file.as_slice();
    let length = bytes.len();
    if buffer.len() < length {
        return Err(Refusal::BufferTooShort);
    }
    buffer[..length].copy_from_slice(bytes);
    Ok(length)
}

// Reads a file. Refuses bytes that are not the file of a valid board.
pub fn read(file: &[u8]) -> Result<Board, Refusal>
    ensures { read_answer result ≡ read_of file.now }
{
    let board = decode(file);
    if is_valid(board) && encode(file_form(file), board).as_slice() == file {
        Ok(board)
    } else {
        Err(Refusal::NotAStateFile)
    }
}
