// A chip with a code for each kind.
ghost use Rattle.std.specs.Prelude.{◌≡◌};
ghost use Rattle.board_codes.specs.Codes.{known_chip, chip_of, chip_c};

use eeprom::Eeprom;

// `shift` is the chip's `data`; `model` is 1 or 2, `mode` and `next_mode` are 0 to 6.
#[repr(C)]
#[derive(Clone, Copy)]
pub struct EepromC {
    pub model: u8,
    pub mode: u8,
    pub next_mode: u8,
    pub chip_addr: u8,
    pub addr: u8,
    pub shift: u8,
    pub counter: u8,
    pub output: u8,
    pub prev_scl: u8,
    pub prev_sda: u8,
}

impl EepromC {
    // Whether each code is a kind's.
    #[tactic(auto, unfolding(crate::specs::Codes::known_chip))]
    pub fn is_known(self) -> bool
        ensures { result ≡ known_chip self }
    {
        // Comparisons and not `try_from`, for speed: that made each line change a tenth slower.
        (self.model == 1 || self.model == 2) && self.mode <= 6 && self.next_mode <= 6
    }
}

impl From<EepromC> for Eeprom {
    ghost from_gives = { λ codes chip. chip ≡ chip_of codes };

    // Returns the chip of these codes. A code that no kind has stands for the first.
    #[tactic(auto, unfolding(crate::specs::Codes::chip_of))]
    fn from(codes: EepromC) -> Eeprom {
        Eeprom {
            model: eeprom_codes::model_of(codes.model),
            mode: eeprom_codes::mode_of(codes.mode),
            next_mode: eeprom_codes::mode_of(codes.next_mode),
            chip_addr: codes.chip_addr,
            addr: codes.addr,
            data: codes.shift,
            counter: codes.counter,
            output: codes.output,
            prev_scl: codes.prev_scl,
            prev_sda: codes.prev_sda,
        }
    }
}

impl From<Eeprom> for EepromC {
    ghost from_gives = { λ chip codes. codes ≡ chip_c chip };

    #[tactic(auto, unfolding(crate::specs::Codes::chip_c))]
    fn from(chip: Eeprom) -> EepromC {
        EepromC {
            model: u8::from(chip.model),
            mode: u8::from(chip.mode),
            next_mode: u8::from(chip.next_mode),
            chip_addr: chip.chip_addr,
            addr: chip.addr,
            shift: chip.data,
            counter: chip.counter,
            output: chip.output,
            prev_scl: chip.prev_scl,
            prev_sda: chip.prev_sda,
        }
    }
}
