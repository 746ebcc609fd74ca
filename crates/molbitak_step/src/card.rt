// A card put into the reader, and its insertion, on the numbers and the modules that they change.
ghost use Rattle.std.specs.Prelude.{◌≡◌};
ghost use Rattle.bandai_fcg.specs.declared.board.Board.{Board};
ghost use Rattle.event.specs.Event.{card_event, insert_event, refusal_of, after_of};
ghost use Rattle.molbitak_step.specs.Parts.{with_card_put, with_insertion};

use bandai_fcg::board::BandaiFCG;
use barcode::modules_of;
use event::refusal::{check_card, check_insert};

// Puts a card of this number and so many digits into the reader and returns 0, or the refusal and nothing changes.
#[tactic(auto, unfolding(event::specs::Event::refusal_of, event::specs::Event::applied, event::specs::Event::after_of, bandai_fcg::specs::Board::with_input))]
#[unsafe(no_mangle)]
pub extern "C" fn molbitak_card(
    new_barcode: &mut u64,
    digit_count: &mut u32,
    fitted: bool,
    number: u64,
    digits: u32,
) -> u8
    ensures { (b : Board) → (result ≡ refusal_of (card_event number digits) (with_card_put new_barcode.old digit_count.old fitted b).bandai) × (with_card_put new_barcode.new digit_count.new fitted b ≡ after_of (card_event number digits) (with_card_put new_barcode.old digit_count.old fitted b)) }
{
    match check_card(fitted, digits) {
        Ok(()) => {
            *new_barcode = number;
            *digit_count = digits;
            0
        }
        Err(refusal) => refusal.number(),
    }
}

// Inserts the card at this clock and returns 0, or the refusal and nothing changes.
#[tactic(auto, unfolding(event::specs::Event::refusal_of, event::specs::Event::applied, event::specs::Event::after_of, bandai_fcg::specs::Board::init_of))]
#[unsafe(no_mangle)]
pub extern "C" fn molbitak_insert(
    insert_cycle: &mut u64,
    module_count: &mut u8,
    modules: &mut [u8; BandaiFCG::MODULES],
    fitted: bool,
    clock: u64,
    number: u64,
    digits: u32,
) -> u8
    ensures { (b : Board) → (result ≡ refusal_of insert_event (with_insertion insert_cycle.old module_count.old modules.old fitted clock number digits b).bandai) × (with_insertion insert_cycle.new module_count.new modules.new fitted clock number digits b ≡ after_of insert_event (with_insertion insert_cycle.old module_count.old modules.old fitted clock number digits b)) }
{
    match check_insert(fitted) {
        Ok(()) => {
            let card = modules_of(number, digits);
            let shown = card.modules;
            *modules = shown;
            *insert_cycle = clock;
            *module_count = card.count;
            0
        }
        Err(refusal) => refusal.number(),
    }
}
