// The checked single calls: 12 for a board that is not valid, then the refusals of the record. A refused call gives the board as it was.
#![tactic(auto)]

ghost use Rattle.std.specs.Prelude.{◌≡◌};
ghost use Rattle.event.specs.Event.{write_event, clocks_event, card_event, insert_event, lines_event};
ghost use Rattle.laws.specs.Choice.{pick};
ghost use Rattle.refusals.specs.Refusals.{number_of};
ghost use Rattle.validity.specs.Valid.{valid_board};
ghost use Rattle.calls.specs.Calls.{called_of, changed_of, read_of, pending_of, mirroring_of, as_read, as_told};

use bandai_fcg::board::Board;
use event::{Answer, Event, Stepped};
use event_step::step;
use refusals::Refusal;
use validity::is_valid;

// What a call that changes a board answers: the board after it, or as it was where the call is refused. The refusal is the byte of the
// event's answer, as C reads it: an `Option` would have to be read back from that byte.
#[repr(C)]
#[derive(Clone, Copy)]
pub struct Changed {
    pub board: Board,
    pub refusal: u8,
}

// Refuses a board that is not valid.
fn check(board: Board) -> Result<(), Refusal>
    ensures { number_of result ≡ pick (valid_board board) 0 12 }
{
    if is_valid(board) {
        Ok(())
    } else {
        Err(Refusal::BoardNotValid)
    }
}

// Any event.
#[tactic(auto, unfolding(crate::specs::Calls::called_of))]
pub fn run_event(board: Board, event: Event) -> Stepped
    ensures { result ≡ called_of event board }
{
    match check(board) {
        Ok(()) => step(board, event),
        Err(refusal) => Stepped {
            board,
            answer: Answer {
                refusal: refusal.number(),
                flags: 0,
                value: 0,
            },
        },
    }
}

#[tactic(auto, unfolding(crate::specs::Calls::changed_of))]
fn called(board: Board, event: Event) -> Changed
    ensures { result ≡ changed_of event board }
{
    let stepped = run_event(board, event);
    Changed {
        board: stepped.board,
        refusal: stepped.answer.refusal,
    }
}

// Writes a register.
pub fn write_register(board: Board, address: u16, value: u8) -> Changed
    ensures { result ≡ changed_of (write_event address value) board }
{
    called(board, Event::write(address, value))
}

// Takes `count` clocks.
pub fn clocks(board: Board, count: u32) -> Changed
    ensures { result ≡ changed_of (clocks_event count) board }
{
    called(board, Event::clocks(count))
}

// Puts a card into the reader.
pub fn card(board: Board, number: u64, digit_count: u32) -> Changed
    ensures { result ≡ changed_of (card_event number digit_count) board }
{
    called(board, Event::card(number, digit_count))
}

// Inserts the card.
pub fn insert(board: Board) -> Changed
    ensures { result ≡ changed_of insert_event board }
{
    called(board, Event::insert())
}

// Sets both lines of a chip: 0 is the standard one, 1 the extra one.
pub fn lines(board: Board, chip: u8, scl: u8, sda: u8) -> Changed
    ensures { result ≡ changed_of (lines_event chip scl sda) board }
{
    called(board, Event::lines(chip, scl, sda))
}

// A device read: the value, where a device answers.
#[tactic(auto, unfolding(crate::specs::Calls::read_of))]
pub fn device_read(board: Board, address: u16) -> Result<Option<u8>, Refusal>
    ensures { as_read result ≡ read_of address board }
{
    check(board)?;
    Ok(board.bandai.prg_peek(&board.modules, address))
}

// Whether an interrupt is pending: 0 or 1.
#[tactic(auto, unfolding(crate::specs::Calls::pending_of))]
pub fn irq_pending(board: Board) -> Result<u8, Refusal>
    ensures { as_told result ≡ pending_of board }
{
    check(board).map(|()| u8::from(board.bandai.regs.irq_pending))
}

// The mirroring in force, by its code.
#[tactic(auto, unfolding(crate::specs::Calls::mirroring_of))]
pub fn mirroring(board: Board) -> Result<u8, Refusal>
    ensures { as_told result ≡ mirroring_of board }
{
    check(board).map(|()| board.bandai.regs.mirroring)
}
