// Why a record is refused on a board. The check of each kind takes the numbers that it reads. They test no validity; their contracts hold on
// every board.
ghost use Rattle.std.specs.Prelude.{◌≡◌};
ghost use Rattle.refusals.specs.Refusals.{number_of};
ghost use Rattle.event.specs.Event.{passes_limit, clocks_refusal, card_refusal, insert_refusal, chip_fitted, lines_refusal, refusal_of};

use crate::Event;
use crate::kind::EventKind;
use bandai_fcg::barcode_reader::BarcodeReader;
use bandai_fcg::board::BandaiFCG;
use barcode::MAX_DIGITS;
use refusals::Refusal;

// Returns whether the reader's clock would pass 2^62.
fn passes_limit(clock: u64, count: u32) -> bool
    ensures { result ≡ passes_limit clock count }
{
    clock > BarcodeReader::CLOCK_LIMIT - u64::from(count)
}

// Checks `count` clocks. `fitted` is whether the board has a reader, `clock` the reader's clock.
pub fn check_clocks(fitted: bool, clock: u64, count: u32) -> Result<(), Refusal>
    ensures { number_of result ≡ clocks_refusal fitted clock count }
{
    if fitted && passes_limit(clock, count) {
        Err(Refusal::ClockLimit)
    } else {
        Ok(())
    }
}

// Checks a card of so many digits.
pub fn check_card(fitted: bool, digit_count: u32) -> Result<(), Refusal>
    ensures { number_of result ≡ card_refusal fitted digit_count }
{
    if !fitted {
        Err(Refusal::NoReader)
    } else if digit_count > MAX_DIGITS {
        Err(Refusal::DigitCount)
    } else {
        Ok(())
    }
}

// Checks an insertion.
pub fn check_insert(fitted: bool) -> Result<(), Refusal>
    ensures { number_of result ≡ insert_refusal fitted }
{
    if fitted {
        Ok(())
    } else {
        Err(Refusal::NoReader)
    }
}

// Returns whether the chip of this number is fitted, by whether the standard and the extra one are.
pub fn chip_fitted(chip: u8, standard: bool, extra: bool) -> bool
    ensures { result ≡ chip_fitted chip standard extra }
{
    match chip {
        Event::STANDARD => standard,
        Event::EXTRA => extra,
        _ => false,
    }
}

// Checks levels for the lines of a chip that is fitted or not.
pub fn check_lines(fitted: bool, scl: u8, sda: u8) -> Result<(), Refusal>
    ensures { number_of result ≡ lines_refusal fitted scl sda }
{
    if !fitted {
        Err(Refusal::ChipNotFitted)
    } else if scl > 1 || sda > 1 {
        Err(Refusal::LineLevel)
    } else {
        Ok(())
    }
}

// Checks a record.
#[tactic(auto, unfolding(crate::specs::Event::refusal_of))]
pub fn check_event(bandai: BandaiFCG, event: Event) -> Result<(), Refusal>
    ensures { number_of result ≡ refusal_of event bandai }
{
    match EventKind::try_from(event.kind)? {
        EventKind::Write | EventKind::Read => Ok(()),
        EventKind::Clocks => {
            let reader = bandai.barcode_reader;
            check_clocks(bandai.has_barcode_reader, reader.master_clock, event.count)
        }
        EventKind::Card => check_card(bandai.has_barcode_reader, event.count),
        EventKind::Insert => check_insert(bandai.has_barcode_reader),
        EventKind::Lines => {
            let fitted = chip_fitted(
                event.chip,
                bandai.has_standard_eeprom,
                bandai.has_extra_eeprom,
            );
            check_lines(fitted, event.scl, event.sda)
        }
    }
}
