// The models and the modes of numbers that come from outside this library, and the fields of a chip as words.
#![tactic(auto)]

ghost use Rattle.std.specs.Prelude.{◌≡◌};
ghost use Rattle.eeprom_codes.specs.Codes.{model_of, mode_of};
ghost use Rattle.eeprom_codes.specs.EepromWords.{eeprom_words, eeprom_of};

use eeprom::{Eeprom, EepromMode, EepromModel};
use laws::byte_at;

// The model of a number; any other number stands for the first.
pub fn model_of(number: u8) -> EepromModel
    ensures { result ≡ model_of number }
{
    EepromModel::try_from(number).unwrap_or(EepromModel::X24C01)
}

// The mode of a number; any other number stands for the first.
pub fn mode_of(number: u8) -> EepromMode
    ensures { result ≡ mode_of number }
{
    EepromMode::try_from(number).unwrap_or(EepromMode::Idle)
}

// The fields of a chip as words, with their widths in bytes: `WIDTHS[i]` is the width of word i.
// Functions and not `From`: the chip and the list are types of other crates. No trait joins them with the words of other parts, since a trait's
// constant cannot be the length of an array in its methods.
pub const WORDS: usize = 10;

pub const WIDTHS: [u8; WORDS] = [1; WORDS];

// Returns the fields of a chip as words.
pub fn words(chip: Eeprom) -> [u64; WORDS]
    ensures { result ≡ eeprom_words chip }
{
    [
        u8::from(chip.model),
        u8::from(chip.mode),
        u8::from(chip.next_mode),
        chip.chip_addr,
        chip.addr,
        chip.data,
        chip.counter,
        chip.output,
        chip.prev_scl,
        chip.prev_sda,
    ]
    .map(u64::from)
}

// Returns the chip with these words, each cut to its width. A missing word is 0.
#[tactic(auto, unfolding(crate::specs::EepromWords::eeprom_of))]
pub fn of_words(words: &[u64]) -> Eeprom
    ensures { result ≡ eeprom_of words.now }
{
    Eeprom {
        model: model_of(byte_at(words, 0)),
        mode: mode_of(byte_at(words, 1)),
        next_mode: mode_of(byte_at(words, 2)),
        chip_addr: byte_at(words, 3),
        addr: byte_at(words, 4),
        data: byte_at(words, 5),
        counter: byte_at(words, 6),
        output: byte_at(words, 7),
        prev_scl: byte_at(words, 8),
        prev_sda: byte_at(words, 9),
    }
}
