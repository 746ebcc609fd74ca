// A falling clock: what follows a full byte, and what follows an acknowledge.
ghost use Rattle.std.specs.Prelude.{◌≡◌};
ghost use Rattle.eeprom.specs.declared.EepromMode.{EepromMode};
ghost use Rattle.eeprom.specs.State.{with_mode, with_next_mode, with_output};
ghost use Rattle.eeprom.specs.Eeprom.{fresh, onward, full, after_write_slave, after_slave, past_store, after_store, fall_of};

use crate::{Eeprom, EepromMode, EepromModel};
use eeprom_bits::{EepromRule, next_in_group, slave_passes, slave_reads};

impl Eeprom {
    // Takes the word address after a slave byte that writes. The datasheet has an acknowledge before it.
    fn after_write_slave(self, rule: EepromRule) -> Eeprom
        ensures { result ≡ after_write_slave rule self }
    {
        match rule {
            EepromRule::Crate => self.fresh(EepromMode::Addr),
            EepromRule::Datasheet => self
                .with_next_mode(EepromMode::Addr)
                .fresh(EepromMode::SendAck),
        }
    }

    // Acknowledges a slave byte that reads, takes the word address after one that writes, else goes idle.
    fn after_slave(self, rule: EepromRule, byte: u8) -> Eeprom
        ensures { result ≡ after_slave rule byte self }
    {
        if !slave_passes(rule, self.chip_addr) {
            self.fresh(EepromMode::Idle)
        } else if slave_reads(self.chip_addr) {
            self.fetched(byte).fresh(EepromMode::SendAck)
        } else {
            self.after_write_slave(rule)
        }
    }

    // Advances the word address past a stored byte. By the datasheet it stays within its four cells.
    fn past_store(mut self, rule: EepromRule) -> Eeprom
        ensures { result ≡ past_store rule self }
    {
        match rule {
            EepromRule::Crate => self.advance(),
            EepromRule::Datasheet => {
                self.addr = next_in_group(self.addr);
                self
            }
        }
    }

    // Acknowledges a stored byte. The X24C01 then ends, the X24C02 takes the next byte.
    fn after_store(self, rule: EepromRule) -> Eeprom
        ensures { result ≡ after_store rule self.model self }
    {
        match self.model {
            EepromModel::X24C01 => self
                .past_store(rule)
                .with_next_mode(EepromMode::Idle)
                .with_mode(EepromMode::SendAck),
            EepromModel::X24C02 => {
                let mut s = self.past_store(rule);
                s.counter = 0;
                s.with_next_mode(EepromMode::Write)
                    .with_mode(EepromMode::SendAck)
            }
        }
    }

    // Waits for an acknowledge after a byte that was sent.
    fn after_sent(self) -> Eeprom
        ensures { result ≡ with_mode EepromMode.WaitAck (onward self) }
    {
        self.advance().with_mode(EepromMode::WaitAck)
    }

    // Acknowledges the X24C01's word address.
    fn after_word(self) -> Eeprom
        ensures { result ≡ with_mode EepromMode.SendAck (with_output 1 self) }
    {
        let mut s = self.with_mode(EepromMode::SendAck);
        s.output = 1;
        s
    }

    // Acknowledges the X24C02's word address, and takes the byte to store next.
    fn after_addr(self) -> Eeprom
        ensures { result ≡ fresh EepromMode.SendAck (with_next_mode EepromMode.Write self) }
    {
        self.with_next_mode(EepromMode::Write)
            .fresh(EepromMode::SendAck)
    }

    // Enters the next mode after an acknowledge.
    fn resume(self) -> Eeprom
        ensures { result ≡ fresh self.next_mode self }
    {
        self.fresh(self.next_mode)
    }

    // Steps the chip at a falling clock; `byte` is the memory's at the word address.
    pub(crate) fn fall(self, rule: EepromRule, byte: u8) -> Eeprom
        ensures { result ≡ fall_of rule self.model self.mode byte self }
    {
        match self.mode {
            EepromMode::Idle => self,
            EepromMode::SendAck => self.resume(),
            EepromMode::Read => self.full(|chip| chip.after_sent()),
            EepromMode::Write => self.full(|chip| chip.after_store(rule)),
            EepromMode::Addr => match self.model {
                EepromModel::X24C01 => self.full(|chip| chip.after_word()),
                EepromModel::X24C02 => self.full(|chip| chip.after_addr()),
            },
            EepromMode::WaitAck => match self.model {
                EepromModel::X24C01 => self,
                EepromModel::X24C02 => self.resume(),
            },
            EepromMode::ChipAddr => match self.model {
                EepromModel::X24C01 => self,
                EepromModel::X24C02 => self.full(|chip| chip.after_slave(rule, byte)),
            },
        }
    }
}
