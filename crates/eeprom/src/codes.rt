// The numbers that stand for the models and the modes outside this library.
ghost use Rattle.std.specs.Prelude.{◌≡◌};
ghost use Rattle.eeprom.specs.Codes.{model_number, mode_number, model_read, mode_read};

use crate::{EepromMode, EepromModel};

impl From<EepromModel> for u8 {
    ghost from_gives = { λ model number. number ≡ model_number model };

    fn from(model: EepromModel) -> u8 {
        model as u8
    }
}

impl From<EepromMode> for u8 {
    ghost from_gives = { λ mode number. number ≡ mode_number mode };

    fn from(mode: EepromMode) -> u8 {
        mode as u8
    }
}

impl TryFrom<u8> for EepromModel {
    // A number that is no model's.
    type Error = u8;

    ghost try_from_gives = { λ number model. model ≡ model_read number };

    fn try_from(number: u8) -> Result<EepromModel, u8> {
        match number {
            1 => Ok(EepromModel::X24C01),
            2 => Ok(EepromModel::X24C02),
            _ => Err(number),
        }
    }
}

impl TryFrom<u8> for EepromMode {
    // A number that is no mode's.
    type Error = u8;

    ghost try_from_gives = { λ number mode. mode ≡ mode_read number };

    fn try_from(number: u8) -> Result<EepromMode, u8> {
        match number {
            0 => Ok(EepromMode::Idle),
            1 => Ok(EepromMode::Addr),
            2 => Ok(EepromMode::Read),
            3 => Ok(EepromMode::Write),
            4 => Ok(EepromMode::SendAck),
            5 => Ok(EepromMode::WaitAck),
            6 => Ok(EepromMode::ChipAddr),
            _ => Err(number),
        }
    }
}
