// Whether a board is valid: what a state file can hold, and what every call with a board asks first.
#![tactic(auto)]

ghost use Rattle.std.specs.Prelude.{◌≡◌, not};
ghost use Rattle.laws.specs.Lists.{every};
ghost use Rattle.barcode.specs.Barcode.{is_module};
ghost use Rattle.validity.specs.Valid.{is_x24_c01, is_blank_chip, valid_regs, valid_reader, is_blank_reader, reader_fits, standard_fits, extra_fits, valid_board};
ghost use Rattle.laws.specs.Choice.{pick};
ghost use Rattle.cart.specs.Cart.{is_x24_c02};

use bandai_fcg::barcode_reader::BarcodeReader;
use bandai_fcg::board::{BandaiFCG, Board};
use barcode::MAX_DIGITS;
use cart::Cart;
use eeprom::{Eeprom, EepromModel};
use eeprom_valid::zeros_from;
use regs::Regs;

// Whether each byte is 0 or 8.
fn all_modules(bytes: &[u8]) -> bool
    ensures { result ≡ every is_module bytes.now }
{
    // Without an early exit, for speed: each look at a board's pages tests its modules.
    bytes
        .iter()
        .fold(true, |all, byte| all & matches!(byte, 0 | 8))
}

// The standard chip is an X24C02 or an X24C01, as the cart says.
fn is_standard_model(cart: Cart, model: EepromModel) -> bool
    ensures { result ≡ pick (is_x24_c02 cart) (not (is_x24_c01 model)) (is_x24_c01 model) }
{
    if cart.has_x24c02() {
        model != EepromModel::X24C01
    } else {
        model == EepromModel::X24C01
    }
}

// A chip that is not fitted is all zeros, its kinds the first.
#[tactic(auto, unfolding(eeprom::specs::Eeprom::new_eeprom))]
fn is_blank_chip(chip: Eeprom) -> bool
    ensures { result ≡ is_blank_chip chip }
{
    chip == Eeprom::new(EepromModel::X24C01)
}

fn regs_valid(regs: Regs) -> bool
    ensures { result ≡ valid_regs regs }
{
    regs.prg_page <= 15
        && matches!(regs.prg_bank_select, 0 | 16)
        && regs.mirroring <= Cart::FOUR_SCREEN
}

fn reader_valid(reader: BarcodeReader) -> bool
    ensures { result ≡ valid_reader reader }
{
    reader.insert_cycle <= reader.master_clock
        && reader.master_clock <= BarcodeReader::CLOCK_LIMIT
        && reader.new_barcode_digit_count <= MAX_DIGITS
        && reader.module_count <= BandaiFCG::MODULES as u8
}

// A reader that is not fitted is all zeros.
fn is_blank_reader(reader: BarcodeReader) -> bool
    ensures { result ≡ is_blank_reader reader }
{
    reader == BarcodeReader::new()
}

#[tactic(auto, unfolding(crate::specs::Valid::reader_fits))]
fn reader_fits(board: Board) -> bool
    ensures { result ≡ reader_fits board }
{
    let cart = board.bandai.cart;
    let reader = board.bandai.barcode_reader;
    if cart.is_datach() {
        board.bandai.has_barcode_reader
            && reader_valid(reader)
            && all_modules(&board.modules)
            && zeros_from(&board.modules, usize::from(reader.module_count))
    } else {
        !board.bandai.has_barcode_reader && is_blank_reader(reader) && zeros_from(&board.modules, 0)
    }
}

#[tactic(auto, unfolding(crate::specs::Valid::standard_fits))]
fn standard_fits(board: Board) -> bool
    ensures { result ≡ standard_fits board }
{
    let cart = board.bandai.cart;
    let chip = board.bandai.standard_eeprom;
    if cart.has_standard_eeprom() {
        board.bandai.has_standard_eeprom
            && is_standard_model(cart, chip.model)
            && eeprom_valid::is_valid(chip, &board.standard_rom)
    } else {
        !board.bandai.has_standard_eeprom
            && is_blank_chip(chip)
            && zeros_from(&board.standard_rom, 0)
    }
}

#[tactic(auto, unfolding(crate::specs::Valid::extra_fits))]
fn extra_fits(board: Board) -> bool
    ensures { result ≡ extra_fits board }
{
    let cart = board.bandai.cart;
    let chip = board.bandai.extra_eeprom;
    if cart.has_extra_eeprom() {
        board.bandai.has_extra_eeprom
            && chip.model == EepromModel::X24C01
            && eeprom_valid::is_valid(chip, &board.extra_rom)
    } else {
        !board.bandai.has_extra_eeprom && is_blank_chip(chip) && zeros_from(&board.extra_rom, 0)
    }
}

// Whether a board is valid.
#[tactic(auto, unfolding(crate::specs::Valid::valid_board))]
pub fn is_valid(board: Board) -> bool
    ensures { result ≡ valid_board board }
{
    board.bandai.cart.check().is_ok()
        && regs_valid(board.bandai.regs)
        && reader_fits(board)
        && standard_fits(board)
        && extra_fits(board)
}
