// A rising clock: the chip takes or gives a bit, acknowledges, or sees an acknowledge.
ghost use Rattle.std.specs.Prelude.{◌≡◌};
ghost use Rattle.eeprom.specs.State.{with_output};
ghost use Rattle.eeprom.specs.Eeprom.{counted, data_out, chip_addr_in, addr_in, data_in, directed, word_in, acked, unacked, rise_of};

use crate::{Eeprom, EepromMode, EepromModel};
use eeprom_bits::{EepromRule, read_bit, write_bit};

impl Eeprom {
    // Counts a bit. A counter of eight or more is unchanged.
    fn counted(mut self) -> Eeprom
        ensures { result ≡ counted self }
    {
        if self.counter < 8 {
            self.counter += 1;
        }
        self
    }

    // Gives the next bit of the byte to the data line.
    fn data_out(mut self, rule: EepromRule) -> Eeprom
        ensures { result ≡ data_out rule self }
    {
        self.output = read_bit(rule, self.data, self.counter, self.output);
        self.counted()
    }

    // A function for each byte that a bit goes into: which field it is cannot be a parameter.

    // Takes a bit of the slave byte.
    fn chip_addr_in(mut self, rule: EepromRule, high: bool) -> Eeprom
        ensures { result ≡ chip_addr_in rule high self }
    {
        self.chip_addr = write_bit(rule, self.chip_addr, self.counter, high);
        self.counted()
    }

    // Takes a bit of the word address.
    fn addr_in(mut self, rule: EepromRule, high: bool) -> Eeprom
        ensures { result ≡ addr_in rule high self }
    {
        self.addr = write_bit(rule, self.addr, self.counter, high);
        self.counted()
    }

    // Takes a bit of the byte to store.
    fn data_in(mut self, rule: EepromRule, high: bool) -> Eeprom
        ensures { result ≡ data_in rule high self }
    {
        self.data = write_bit(rule, self.data, self.counter, high);
        self.counted()
    }

    // Takes the X24C01's eighth bit: read if it is high, else write.
    fn directed(self, high: bool, byte: u8) -> Eeprom
        ensures { result ≡ directed high byte self }
    {
        if high {
            self.fetched(byte)
        } else {
            self.with_next_mode(EepromMode::Write)
        }
    }

    // Takes a bit of the X24C01's word address: seven bits, low ones first, then the direction.
    fn word_in(self, high: bool, byte: u8) -> Eeprom
        ensures { result ≡ word_in high byte self }
    {
        if self.counter == 7 {
            let mut s = self.directed(high, byte);
            s.counter = 8;
            s
        } else {
            self.addr_in(EepromRule::Crate, high)
        }
    }

    // Takes the acknowledge of a read: the X24C01 ends there, the X24C02 fetches the next byte.
    fn acked(self, byte: u8) -> Eeprom
        ensures { result ≡ acked self.model byte self }
    {
        match self.model {
            EepromModel::X24C01 => self.with_next_mode(EepromMode::Idle),
            EepromModel::X24C02 => self.fetched(byte),
        }
    }

    // Keeps the old byte where a read is not acknowledged. By the datasheet the chip then goes idle.
    fn unacked(self, rule: EepromRule) -> Eeprom
        ensures { result ≡ unacked rule self }
    {
        match rule {
            EepromRule::Crate => self,
            EepromRule::Datasheet => self.with_next_mode(EepromMode::Idle),
        }
    }

    // Draws the data line low.
    fn acknowledge(mut self) -> Eeprom
        ensures { result ≡ with_output 0 self }
    {
        self.output = 0;
        self
    }

    // Steps the chip at a rising clock, with SDA high or low; `byte` is the memory's at the word address.
    pub(crate) fn rise(self, rule: EepromRule, high: bool, byte: u8) -> Eeprom
        ensures { result ≡ rise_of rule self.model self.mode high byte self }
    {
        match self.mode {
            EepromMode::Idle => self,
            EepromMode::Read => self.data_out(rule),
            EepromMode::Write => self.data_in(rule, high),
            EepromMode::SendAck => self.acknowledge(),
            EepromMode::WaitAck => {
                if high {
                    self.unacked(rule)
                } else {
                    self.acked(byte)
                }
            }
            EepromMode::Addr => match self.model {
                EepromModel::X24C01 => self.word_in(high, byte),
                EepromModel::X24C02 => self.addr_in(rule, high),
            },
            EepromMode::ChipAddr => match self.model {
                EepromModel::X24C01 => self,
                EepromModel::X24C02 => self.chip_addr_in(rule, high),
            },
        }
    }
}
