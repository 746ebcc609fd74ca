// Whether a chip with its memory is valid.
#![tactic(auto)]

ghost use Rattle.std.specs.Prelude.{◌≡◌};
ghost use Rattle.laws.specs.Lists.{zeros_from};
ghost use Rattle.eeprom.specs.Eeprom.{has_mode};
ghost use Rattle.eeprom_valid.specs.Valid.{valid_chip, valid_eeprom};

use eeprom::{Eeprom, EepromMode, EepromModel};

fn has_mode(model: EepromModel, mode: EepromMode) -> bool
    ensures { result ≡ has_mode model mode }
{
    model == EepromModel::X24C02 || mode != EepromMode::ChipAddr
}

// Whether each byte from place `from` on is 0.
pub fn zeros_from(bytes: &[u8], from: usize) -> bool
    ensures { result ≡ zeros_from from bytes.now }
{
    // Without an early exit, for speed: each look at a board's pages tests its bytes.
    bytes[from.min(bytes.len())..]
        .iter()
        .fold(true, |zeros, byte| zeros & (*byte == 0))
}

fn is_valid_chip(chip: Eeprom) -> bool
    ensures { result ≡ valid_chip chip }
{
    chip.counter <= 8
        && chip.output <= 1
        && chip.prev_scl <= 1
        && chip.prev_sda <= 1
        && usize::from(chip.addr) < Eeprom::rom_size(chip.model)
        && has_mode(chip.model, chip.mode)
        && has_mode(chip.model, chip.next_mode)
}

// Its fields are as the model allows, and zeros stand past its bytes.
#[tactic(auto, unfolding(crate::specs::Valid::valid_eeprom))]
pub fn is_valid(chip: Eeprom, rom_data: &[u8; Eeprom::ROM_SIZE]) -> bool
    ensures { result ≡ valid_eeprom chip rom_data.now }
{
    is_valid_chip(chip) && zeros_from(rom_data, Eeprom::rom_size(chip.model))
}
