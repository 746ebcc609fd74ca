// The board. `BandaiFCG` is its state without arrays, `Board` the whole: the state and, beside it, the reader's modules and the memories of
// both chips. A method of `BandaiFCG` takes the state by value, hands it back, and is lent the arrays that it changes.
ghost use Rattle.std.specs.Prelude.{◌≡◌};
ghost use Rattle.bandai_fcg.specs.Board.{fitted_state, fitted, empty_board, loaded, load_of, standard_model};

use crate::barcode_reader::BarcodeReader;
use barcode::Modules;
use cart::Cart;
use eeprom::{Eeprom, EepromModel};
use refusals::Refusal;
use regs::Regs;

#[repr(C)]
#[derive(Clone, Copy)]
pub struct BandaiFCG {
    pub barcode_reader: BarcodeReader,
    pub cart: Cart,
    pub regs: Regs,
    pub standard_eeprom: Eeprom,
    pub extra_eeprom: Eeprom,
    pub has_barcode_reader: bool,
    pub has_standard_eeprom: bool,
    pub has_extra_eeprom: bool,
}

#[repr(C)]
#[derive(Clone, Copy)]
pub struct Board {
    pub bandai: BandaiFCG,
    pub modules: [u8; BandaiFCG::MODULES],
    pub standard_rom: [u8; BandaiFCG::ROM_SIZE],
    pub extra_rom: [u8; BandaiFCG::ROM_SIZE],
}

// Returns the model of the standard chip; X24C01 where none is fitted.
fn standard_model(cart: Cart) -> EepromModel
    ensures { result ≡ standard_model cart }
{
    if cart.has_x24c02() {
        EepromModel::X24C02
    } else {
        EepromModel::X24C01
    }
}

impl BandaiFCG {
    // The bytes of the windows and regions that the page tables map.
    pub const PRG_WINDOW: u16 = Cart::PRG_WINDOW;

    pub const PRG_RAM_SIZE: u16 = 8192;

    pub const CHR_ROM_WINDOW: u16 = 1024;

    pub const CHR_RAM_SIZE: u16 = 8192;

    // The lengths of the arrays that stand beside the state.
    pub const MODULES: usize = Modules::CAPACITY;

    pub const ROM_SIZE: usize = Eeprom::ROM_SIZE;

    // Returns the state of a board as it is fitted: a part that is not fitted is all zeros, every enum at its first variant.
    #[tactic(auto, unfolding(crate::specs::Board::fitted_state))]
    fn fit(cart: Cart) -> BandaiFCG
        ensures { result ≡ fitted_state cart }
    {
        BandaiFCG {
            barcode_reader: BarcodeReader::new(),
            cart,
            regs: Regs::new(cart.mirroring),
            standard_eeprom: Eeprom::new(standard_model(cart)),
            extra_eeprom: Eeprom::new(EepromModel::X24C01),
            has_barcode_reader: cart.is_datach(),
            has_standard_eeprom: cart.has_standard_eeprom(),
            has_extra_eeprom: cart.has_extra_eeprom(),
        }
    }

    // Fits a board, or refuses the description.
    #[tactic(auto, unfolding(crate::specs::Board::load_of))]
    pub fn load(cart: Cart) -> Result<Board, Refusal>
        ensures { loaded result ≡ load_of cart }
    {
        cart.check()?;
        Ok(Board::fit(cart))
    }
}

impl Board {
    // Returns the board as it is fitted from a cart, its arrays all zeros.
    #[tactic(auto, unfolding(crate::specs::Board::fitted, laws::specs::Lists::blank))]
    fn fit(cart: Cart) -> Board
        ensures { result ≡ fitted cart }
    {
        Board {
            bandai: BandaiFCG::fit(cart),
            modules: [0; BandaiFCG::MODULES],
            standard_rom: [0; BandaiFCG::ROM_SIZE],
            extra_rom: [0; BandaiFCG::ROM_SIZE],
        }
    }

    // Returns the empty board: all zeros, every enum at its first variant.
    #[tactic(auto, unfolding(crate::specs::Board::empty_board))]
    pub fn empty() -> Board
        ensures { result ≡ empty_board }
    {
        Board::fit(Cart::empty())
    }
}
