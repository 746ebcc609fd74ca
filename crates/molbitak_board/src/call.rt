// Fitting, validity and events.
ghost use Rattle.std.specs.Prelude.{◌≡◌};
ghost use Rattle.board_event.specs.Event.{event_on};
ghost use Rattle.eeprom.specs.Eeprom.{size};
ghost use Rattle.eeprom_codes.specs.Codes.{model_of};
ghost use Rattle.molbitak_board.specs.Fitting.{loaded_c, valid_on};

use bandai_fcg::board::{BandaiFCG, Board};
use board_codes::board::BoardC;
use board_event::event_on;
use cart::Cart;
use eeprom::Eeprom;
use eeprom_codes::model_of;
use event::{Answer, Event};
use refusals::number_of;
use validity::is_valid;

// The result of a call that makes a board: the refusal, or 0, and the board. A refused call gives the empty board.
#[repr(C)]
#[derive(Clone, Copy)]
pub struct LoadedC {
    pub refusal: u8,
    pub board: BoardC,
}

// Fits a board.
#[unsafe(no_mangle)]
#[tactic(auto, unfolding(crate::specs::Fitting::loaded_c))]
pub extern "C" fn molbitak_load(cart: Cart) -> LoadedC
    ensures { result ≡ loaded_c cart }
{
    let outcome = BandaiFCG::load(cart);
    LoadedC {
        refusal: number_of(&outcome),
        board: BoardC::from(outcome.unwrap_or(Board::empty())),
    }
}

// Returns whether every code is known and the board is valid.
#[unsafe(no_mangle)]
#[tactic(auto, unfolding(crate::specs::Fitting::valid_on))]
pub extern "C" fn molbitak_is_valid(b: BoardC) -> bool
    ensures { result ≡ valid_on b }
{
    b.is_known() && is_valid(Board::from(b))
}

// Takes an event of any kind and returns its answer: 12 for a board that is not valid, then the refusals of the event.
#[unsafe(no_mangle)]
pub extern "C" fn molbitak_event(b: &mut BoardC, event: Event) -> Answer
    ensures { (b.new ≡ (event_on b.old event).board) × (result ≡ (event_on b.old event).answer) }
{
    let r = event_on(*b, event);
    *b = r.board;
    r.answer
}

// Returns the length in bytes of a chip's memory, by the code of its model. An unknown code stands for the first model.
#[unsafe(no_mangle)]
pub extern "C" fn molbitak_rom_size(model: u8) -> usize
    ensures { result ≡ size (model_of model) }
{
    Eeprom::rom_size(model_of(model))
}
