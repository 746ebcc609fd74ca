// The parts of one step: the rule, the place of the word address, START and STOP, the change of the lines, and when a byte is stored.
ghost use Rattle.std.specs.Prelude.{◌≡◌, ◌<◌};
ghost use Rattle.eeprom.specs.declared.EepromMode.{EepromMode};
ghost use Rattle.eeprom.specs.State.{with_mode, with_output};
ghost use Rattle.eeprom.specs.Eeprom.{rule_for, place, start_of, moved, stores_at, line_change};

use crate::lines::change_of;
use crate::{Eeprom, EepromMode, EepromModel, LineChange};
use eeprom_bits::EepromRule;

impl Eeprom {
    // Returns the rule that the chip's model knows: an X24C01 the crate's alone.
    pub(crate) fn rule_for(self, rule: EepromRule) -> EepromRule
        ensures { result ≡ rule_for self.model rule }
    {
        match self.model {
            EepromModel::X24C01 => EepromRule::Crate,
            EepromModel::X24C02 => rule,
        }
    }

    // Returns the index in `rom_data` of the byte at the word address.
    pub(crate) fn place(self) -> usize
        ensures { (result ≡ place self) × (result < 256) }
    {
        match self.model {
            EepromModel::X24C01 => usize::from(self.addr & 0x7F),
            EepromModel::X24C02 => usize::from(self.addr),
        }
    }

    // Returns the change of the lines as they go to the levels `scl` and `sda`.
    pub(crate) fn line_change(self, scl: u8, sda: u8) -> LineChange
        ensures { result ≡ line_change self scl sda }
    {
        change_of(self.prev_scl > 0, scl > 0, self.prev_sda > 0, sda > 0)
    }

    // Returns whether the chip's byte is stored: SCL falls after the eighth bit of a write.
    pub(crate) fn stores_at(self, change: LineChange) -> bool
        ensures { result ≡ stores_at change self.mode self.counter }
    {
        change == LineChange::Fall && self.mode == EepromMode::Write && self.counter == 8
    }

    // Awaits the word address (X24C01, from 0) or the slave byte (X24C02).
    fn start(self) -> Eeprom
        ensures { result ≡ start_of self.model self }
    {
        match self.model {
            EepromModel::X24C01 => {
                let mut s = self.fresh(EepromMode::Addr);
                s.addr = 0;
                s
            }
            EepromModel::X24C02 => self.fresh(EepromMode::ChipAddr),
        }
    }

    // Goes idle and releases the data line.
    fn stop(self) -> Eeprom
        ensures { result ≡ with_mode EepromMode.Idle (with_output 1 self) }
    {
        let mut s = self.with_mode(EepromMode::Idle);
        s.output = 1;
        s
    }

    // Applies a change of the lines, with SDA high or low; `byte` is the memory's at the word address.
    pub(crate) fn apply_change(
        self,
        rule: EepromRule,
        change: LineChange,
        high: bool,
        byte: u8,
    ) -> Eeprom
        ensures { result ≡ moved rule change high byte self }
    {
        match change {
            LineChange::Start => self.start(),
            LineChange::Stop => self.stop(),
            LineChange::Rise => self.rise(rule, high, byte),
            LineChange::Fall => self.fall(rule, byte),
            LineChange::Nothing => self,
        }
    }
}
