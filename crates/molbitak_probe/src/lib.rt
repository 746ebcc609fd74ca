// How a board is laid out, as this side reads it: every field by the number of its part and its place there, so that the other side can hold its
// own layout to it.
#![tactic(auto)]

ghost use Rattle.std.specs.Prelude.{◌≡◌, get_or};
ghost use Rattle.molbitak_probe.specs.Probe.{chip_fields, flag_fields, devices_field, bandai_field, field_of};

use board_codes::board::{BandaiC, BoardC, DevicesC};
use board_codes::chip::EepromC;
use laws::{flag, word_at};

// Byte i of an array, 0 past it.
fn byte_at(bytes: &[u8], i: usize) -> u64
    ensures { result ≡ get_or bytes.now i 0 }
{
    bytes.get(i).copied().map_or(0, u64::from)
}

#[tactic(auto, unfolding(crate::specs::Probe::chip_fields, board_codes::specs::Bytes::chip_bytes))]
fn chip_fields(c: EepromC) -> [u64; 10]
    ensures { result ≡ chip_fields c }
{
    <[u8; 10]>::from(c).map(u64::from)
}

#[tactic(auto, unfolding(crate::specs::Probe::flag_fields))]
fn flag_fields(d: DevicesC) -> [u64; 3]
    ensures { result ≡ flag_fields d }
{
    [
        d.has_barcode_reader,
        d.has_standard_eeprom,
        d.has_extra_eeprom,
    ]
    .map(flag)
}

// The parts are 0 reader, 1 cart, 2 registers, 3 standard chip, 4 extra chip, 5 what is fitted, 6 modules, 7 and 8 the chips' memories. A
// function for a few of them each, as a board holds them.

#[tactic(auto, unfolding(crate::specs::Probe::devices_field))]
fn devices_field(d: DevicesC, part: u8, i: usize) -> u64
    ensures { result ≡ devices_field d part i }
{
    match part {
        3 => word_at(&chip_fields(d.standard_eeprom), i),
        4 => word_at(&chip_fields(d.extra_eeprom), i),
        5 => word_at(&flag_fields(d), i),
        _ => 0,
    }
}

#[tactic(auto, unfolding(crate::specs::Probe::bandai_field))]
fn bandai_field(h: BandaiC, part: u8, i: usize) -> u64
    ensures { result ≡ bandai_field h part i }
{
    match part {
        0 => word_at(&h.barcode_reader.words(), i),
        1 => word_at(&h.cart.words(), i),
        2 => word_at(&h.regs.words(), i),
        _ => devices_field(h.devices, part, i),
    }
}

// Returns place i of a part: word i of its list. Returns 0 past the part, and where there is no such part.
#[unsafe(no_mangle)]
#[tactic(auto, unfolding(crate::specs::Probe::field_of))]
pub extern "C" fn molbitak_field(b: BoardC, part: u8, i: usize) -> u64
    ensures { result ≡ field_of b part i }
{
    match part {
        6 => byte_at(&b.modules, i),
        7 => byte_at(&b.standard_rom, i),
        8 => byte_at(&b.extra_rom, i),
        _ => bandai_field(b.bandai, part, i),
    }
}
