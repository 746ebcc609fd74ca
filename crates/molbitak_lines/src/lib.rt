// A line change of one chip, given as its ten bytes, for a board known to be valid.
#![tactic(auto)]

ghost use Rattle.std.specs.Prelude.{◌≡◌};
ghost use Rattle.refusals.specs.Refusals.{number_of};
ghost use Rattle.event.specs.Event.{chip_fitted};
ghost use Rattle.board_codes.specs.Bytes.{chip_at};
ghost use Rattle.molbitak_lines.specs.Lines.{line_refusal, chip_after, rom_after_line};

use board_codes::chip::EepromC;
use eeprom::Eeprom;
use eeprom_bits::EepromRule;
use event::refusal::{check_lines, chip_fitted};
use refusals::Refusal;

// Checks a line change: as the event does; then a chip with an unknown code is refused.
#[tactic(auto, unfolding(crate::specs::Lines::line_refusal))]
fn check_line(chip: EepromC, fitted: bool, scl: u8, sda: u8) -> Result<(), Refusal>
    ensures { number_of result ≡ line_refusal chip fitted scl sda }
{
    check_lines(fitted, scl, sda)?;
    if chip.is_known() {
        Ok(())
    } else {
        Err(Refusal::BoardNotValid)
    }
}

// Sets both lines of the chip of this number and returns 0, or the refusal and nothing changes. `chip` and `rom` are that chip's bytes and
// memory, `fitted` whether it is fitted, `rule` the board's rule by its code. For a number that no chip has they may be any chip's: it is
// refused.
#[tactic(auto, unfolding(crate::specs::Lines::chip_after, crate::specs::Lines::rom_after_line))]
#[unsafe(no_mangle)]
pub extern "C" fn molbitak_lines(
    chip: &mut [u8; 10],
    rom: &mut [u8; Eeprom::ROM_SIZE],
    number: u8,
    fitted: bool,
    rule: u8,
    scl: u8,
    sda: u8,
) -> u8
    ensures { (result ≡ line_refusal (chip_at chip.old) (chip_fitted number fitted fitted) scl sda) × (chip.new ≡ chip_after rule chip.old rom.old (chip_fitted number fitted fitted) scl sda) × (rom.new ≡ rom_after_line chip.old rom.old (chip_fitted number fitted fitted) scl sda) }
{
    let codes = EepromC::from(*chip);
    match check_line(codes, chip_fitted(number, fitted, fitted), scl, sda) {
        Ok(()) => {
            let eeprom = Eeprom::from(codes);
            let eeprom = eeprom.write(EepromRule::from(rule), rom, scl, sda);
            *chip = EepromC::from(eeprom).into();
            0
        }
        Err(refusal) => refusal.number(),
    }
}
