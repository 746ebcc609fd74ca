// The board with a code for each enum, its arrays apart from the rest.
ghost use Rattle.std.specs.Prelude.{◌≡◌};
ghost use Rattle.board_codes.specs.Codes.{known_board, board_of, board_c, board_in};

use crate::chip::EepromC;
use bandai_fcg::barcode_reader::BarcodeReader;
use bandai_fcg::board::{BandaiFCG, Board};
use cart::Cart;
use eeprom::Eeprom;
use regs::Regs;

// Both chips, and what is fitted.
#[repr(C)]
#[derive(Clone, Copy)]
pub struct DevicesC {
    pub standard_eeprom: EepromC,
    pub extra_eeprom: EepromC,
    pub has_barcode_reader: bool,
    pub has_standard_eeprom: bool,
    pub has_extra_eeprom: bool,
}

// The state, `BandaiFCG`, with a code for each enum.
#[repr(C)]
#[derive(Clone, Copy)]
pub struct BandaiC {
    pub barcode_reader: BarcodeReader,
    pub cart: Cart,
    pub regs: Regs,
    pub devices: DevicesC,
}

#[repr(C)]
#[derive(Clone, Copy)]
pub struct BoardC {
    pub bandai: BandaiC,
    pub modules: [u8; BandaiFCG::MODULES],
    pub standard_rom: [u8; BandaiFCG::ROM_SIZE],
    pub extra_rom: [u8; BandaiFCG::ROM_SIZE],
}

impl BoardC {
    // Returns whether every code is known.
    #[tactic(auto, unfolding(crate::specs::Codes::known_board))]
    pub fn is_known(self) -> bool
        ensures { result ≡ known_board self }
    {
        let devices = self.bandai.devices;
        devices.standard_eeprom.is_known() && devices.extra_eeprom.is_known()
    }

    // Returns the board of these codes, for calls that check validity themselves.
    // An unknown code yields the empty board, which is not valid.
    #[tactic(auto, unfolding(crate::specs::Codes::board_in))]
    pub fn checked(self) -> Board
        ensures { result ≡ board_in self }
    {
        if self.is_known() {
            Board::from(self)
        } else {
            Board::empty()
        }
    }
}

impl From<BoardC> for Board {
    ghost from_gives = { λ codes board. board ≡ board_of codes };

    // Returns the board of these codes. An unknown code stands for the first variant.
    #[tactic(auto, unfolding(crate::specs::Codes::board_of))]
    fn from(codes: BoardC) -> Board {
        let BoardC {
            bandai,
            modules,
            standard_rom,
            extra_rom,
        } = codes;
        let devices = bandai.devices;
        Board {
            bandai: BandaiFCG {
                barcode_reader: bandai.barcode_reader,
                cart: bandai.cart,
                regs: bandai.regs,
                standard_eeprom: Eeprom::from(devices.standard_eeprom),
                extra_eeprom: Eeprom::from(devices.extra_eeprom),
                has_barcode_reader: devices.has_barcode_reader,
                has_standard_eeprom: devices.has_standard_eeprom,
                has_extra_eeprom: devices.has_extra_eeprom,
            },
            modules,
            standard_rom,
            extra_rom,
        }
    }
}

impl From<Board> for BoardC {
    ghost from_gives = { λ board codes. codes ≡ board_c board };

    #[tactic(auto, unfolding(crate::specs::Codes::board_c, crate::specs::Codes::bandai_c, crate::specs::Codes::devices_c))]
    fn from(board: Board) -> BoardC {
        let Board {
            bandai,
            modules,
            standard_rom,
            extra_rom,
        } = board;
        BoardC {
            bandai: BandaiC {
                barcode_reader: bandai.barcode_reader,
                cart: bandai.cart,
                regs: bandai.regs,
                devices: DevicesC {
                    standard_eeprom: EepromC::from(bandai.standard_eeprom),
                    extra_eeprom: EepromC::from(bandai.extra_eeprom),
                    has_barcode_reader: bandai.has_barcode_reader,
                    has_standard_eeprom: bandai.has_standard_eeprom,
                    has_extra_eeprom: bandai.has_extra_eeprom,
                },
            },
            modules,
            standard_rom,
            extra_rom,
        }
    }
}
