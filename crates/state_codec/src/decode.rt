// What the places of any bytes hold, as a board.
ghost use Rattle.std.specs.Prelude.{◌≡◌, ◌≤◌};
ghost use Rattle.eeprom.specs.Eeprom.{size};
ghost use Rattle.state_bodies.specs.Bodies.{rom_at};
ghost use Rattle.state_codec.specs.Decode.{file_form, reader_for, eeprom_for, fitted_length, board_from, decode};

use crate::encode::{eeprom_room, first_start, fitted_length, reader_room};
use bandai_fcg::barcode_reader::BarcodeReader;
use bandai_fcg::board::{BandaiFCG, Board};
use eeprom::{Eeprom, EepromModel};
use state_bodies::FileForm;

// Where the contents have the length of body 1: after the number of parts, its kind and a 0.
const CART_LENGTH_AT: u16 = 3;

// Returns the form of a file.
pub fn file_form(f: &[u8]) -> FileForm
    ensures { result ≡ file_form f.now }
{
    if state_bodies::u16_at(f, CART_LENGTH_AT) == state_bodies::OLD_CART_LENGTH {
        FileForm::Old
    } else {
        FileForm::Current
    }
}

fn reader_for(has: bool, f: &[u8], at: u16) -> BarcodeReader
    ensures { result ≡ reader_for has f.now at }
{
    if has {
        state_bodies::reader_at(f, at)
    } else {
        BarcodeReader::new()
    }
}

fn eeprom_for(has: bool, f: &[u8], at: u16) -> Eeprom
    ensures { result ≡ eeprom_for has f.now at }
{
    if has {
        state_bodies::eeprom_at(f, at)
    } else {
        Eeprom::new(EepromModel::X24C01)
    }
}

#[tactic(auto, using(state_bodies::specs::BodiesLaws::size_within))]
fn rom_for(has: bool, f: &[u8], at: u16, model: EepromModel) -> [u8; Eeprom::ROM_SIZE]
    ensures { result ≡ rom_at f.now at (fitted_length has (size model)) }
{
    state_bodies::rom_at(f, at, fitted_length(has, Eeprom::rom_size(model) as u16))
}

fn board_from(form: FileForm, f: &[u8], at: u16) -> Board
    requires { at ≤ 1531 }
    ensures { result ≡ board_from form f.now at }
{
    let cart = state_bodies::cart_at(form, f, at);
    let has_barcode_reader = cart.is_datach();
    let has_standard_eeprom = cart.has_standard_eeprom();
    let has_extra_eeprom = cart.has_extra_eeprom();
    let regs_start = at + state_bodies::cart_length(form);
    let regs = state_bodies::regs_at(f, regs_start);
    let reader_start = regs_start + state_bodies::REGS_LENGTH;
    let barcode_reader = reader_for(has_barcode_reader, f, reader_start);
    let modules = state_bodies::modules_at(f, reader_start, barcode_reader.module_count);
    let standard_start = reader_start + reader_room(has_barcode_reader, barcode_reader);
    let standard_eeprom = eeprom_for(has_standard_eeprom, f, standard_start);
    let standard_rom = rom_for(
        has_standard_eeprom,
        f,
        standard_start,
        standard_eeprom.model,
    );
    let extra_start = standard_start + eeprom_room(has_standard_eeprom, standard_eeprom);
    let extra_eeprom = eeprom_for(has_extra_eeprom, f, extra_start);
    let extra_rom = rom_for(has_extra_eeprom, f, extra_start, extra_eeprom.model);
    let bandai = BandaiFCG {
        barcode_reader,
        cart,
        regs,
        standard_eeprom,
        extra_eeprom,
        has_barcode_reader,
        has_standard_eeprom,
        has_extra_eeprom,
    };
    Board {
        bandai,
        modules,
        standard_rom,
        extra_rom,
    }
}

// Returns the board whose fields the bytes hold, whatever they are.
#[tactic(auto, unfolding(crate::specs::Decode::decode))]
pub fn decode(f: &[u8]) -> Board
    ensures { result ≡ decode f.now }
{
    board_from(file_form(f), f, first_start(state_bodies::u8_at(f, 0, 0)))
}
