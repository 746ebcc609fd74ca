// A register write, on the registers, the chips and their memories.
ghost use Rattle.std.specs.Prelude.{◌≡◌};
ghost use Rattle.bandai_fcg.specs.declared.board.Board.{Board};
ghost use Rattle.bandai_fcg.specs.Board.{write_register};
ghost use Rattle.board_codes.specs.Codes.{chip_of, chip_c};
ghost use Rattle.board_codes.specs.Bytes.{chip_at, chip_bytes};
ghost use Rattle.molbitak_step.specs.Parts.{chips_state, with_chips, Shows};

use bandai_fcg::barcode_reader::BarcodeReader;
use bandai_fcg::board::BandaiFCG;
use board_codes::chip::EepromC;
use cart::Cart;
use eeprom::Eeprom;
use regs::Regs;

fn chip_of(bytes: [u8; 10]) -> Eeprom
    ensures { result ≡ chip_of (chip_at bytes) }
{
    Eeprom::from(EepromC::from(bytes))
}

fn bytes_of(chip: Eeprom) -> [u8; 10]
    ensures { result ≡ chip_bytes (chip_c chip) }
{
    EepromC::from(chip).into()
}

// Returns the state of a board without a reader that has these parts.
fn chips_state(
    cart: Cart,
    regs: Regs,
    standard: Eeprom,
    extra: Eeprom,
    has_standard: bool,
    has_extra: bool,
) -> BandaiFCG
    ensures { result ≡ chips_state cart regs standard extra has_standard has_extra }
{
    BandaiFCG {
        barcode_reader: BarcodeReader::new(),
        cart,
        regs,
        standard_eeprom: standard,
        extra_eeprom: extra,
        has_barcode_reader: false,
        has_standard_eeprom: has_standard,
        has_extra_eeprom: has_extra,
    }
}

// Writes a register and returns the registers after it. The chips are the fields of EepromC in their order; an unknown code stands for the
// first variant.
#[unsafe(no_mangle)]
pub extern "C" fn molbitak_write_register(
    cart: Cart,
    regs: Regs,
    standard: &mut [u8; 10],
    extra: &mut [u8; 10],
    has_standard: bool,
    has_extra: bool,
    standard_rom: &mut [u8; BandaiFCG::ROM_SIZE],
    extra_rom: &mut [u8; BandaiFCG::ROM_SIZE],
    addr: u16,
    val: u8,
) -> Regs
    ensures { (b : Board) → Shows result standard.new extra.new standard_rom.new extra_rom.new (write_register addr val (with_chips cart regs (chip_at standard.old) (chip_at extra.old) has_standard has_extra standard_rom.old extra_rom.old b)) }
{
    let bandai = chips_state(
        cart,
        regs,
        chip_of(*standard),
        chip_of(*extra),
        has_standard,
        has_extra,
    );
    let after = bandai.write_register(standard_rom, extra_rom, addr, val);
    *standard = bytes_of(after.standard_eeprom);
    *extra = bytes_of(after.extra_eeprom);
    after.regs
}
