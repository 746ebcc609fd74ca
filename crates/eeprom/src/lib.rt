// The serial EEPROMs X24C01 and X24C02, behind a clock line SCL and a data line SDA.
// A chip's bytes, `rom_data`, are an array beside the chip, lent to each step. A step goes by the chip rule.
#![tactic(auto)]

ghost use Rattle.std.specs.Prelude.{◌≡◌};
ghost use Rattle.eeprom.specs.Eeprom.{size, new_eeprom, eeprom_after, rom_after};

mod codes;
mod fall;
mod lines;
mod parts;
mod rise;
mod step;

use eeprom_bits::EepromRule;

// The models, each by the number that stands for it outside this library.
#[derive(Clone, Copy, PartialEq, Eq)]
pub enum EepromModel {
    X24C01 = 1,
    X24C02 = 2,
}

// The modes, likewise.
#[derive(Clone, Copy, PartialEq, Eq)]
pub enum EepromMode {
    Idle = 0,
    Addr = 1,
    Read = 2,
    Write = 3,
    SendAck = 4,
    WaitAck = 5,
    ChipAddr = 6,
}

#[derive(Clone, Copy, PartialEq, Eq)]
pub struct Eeprom {
    pub model: EepromModel,
    pub mode: EepromMode,
    pub next_mode: EepromMode,
    pub chip_addr: u8,
    pub addr: u8,
    pub data: u8,
    pub counter: u8,
    pub output: u8,
    pub prev_scl: u8,
    pub prev_sda: u8,
}

// The change of the two lines in one step.
#[derive(Clone, Copy, PartialEq, Eq)]
pub enum LineChange {
    Start,
    Stop,
    Rise,
    Fall,
    Nothing,
}

impl Eeprom {
    // The length of the array lent as `rom_data`: room for the larger model.
    pub const ROM_SIZE: usize = 256;

    // The bytes of each model. An X24C01 uses the first 128 of its array.
    pub const X24C01_SIZE: usize = 128;

    pub const X24C02_SIZE: usize = Eeprom::ROM_SIZE;

    // Returns how many bytes a model has.
    pub fn rom_size(model: EepromModel) -> usize
        ensures { result ≡ size model }
    {
        match model {
            EepromModel::X24C01 => Eeprom::X24C01_SIZE,
            EepromModel::X24C02 => Eeprom::X24C02_SIZE,
        }
    }

    // Returns a chip at power on: idle, all numbers 0.
    #[tactic(auto, unfolding(crate::specs::Eeprom::new_eeprom))]
    pub fn new(model: EepromModel) -> Eeprom
        ensures { result ≡ new_eeprom model }
    {
        Eeprom {
            model,
            mode: EepromMode::Idle,
            next_mode: EepromMode::Idle,
            chip_addr: 0,
            addr: 0,
            data: 0,
            counter: 0,
            output: 0,
            prev_scl: 0,
            prev_sda: 0,
        }
    }

    // Returns the level that the chip gives to the data line.
    pub fn read(self) -> u8
        ensures { result ≡ self.output }
    {
        self.output
    }

    // Steps the chip under a rule as the lines go to the levels `scl` and `sda`; any level but 0 is high.
    // Stores one byte in `rom_data` where SCL falls after the eighth bit of a write, and else leaves it as it is.
    #[tactic(auto, unfolding(crate::specs::Eeprom::eeprom_after, crate::specs::Eeprom::rom_after, crate::specs::Eeprom::step_of, crate::specs::Eeprom::stores))]
    pub fn write(
        mut self,
        rule: EepromRule,
        rom_data: &mut [u8; Eeprom::ROM_SIZE],
        scl: u8,
        sda: u8,
    ) -> Eeprom
        ensures { (result ≡ eeprom_after rule self rom_data.old scl sda) × (rom_data.new ≡ rom_after self rom_data.old scl sda) }
    {
        let at = self.place();
        let byte = rom_data[at];
        let change = self.line_change(scl, sda);
        // The store comes last, for speed: before the change it made each line change a tenth slower.
        let stores = self.stores_at(change);
        let mut after = self.apply_change(self.rule_for(rule), change, sda > 0, byte);
        after.prev_scl = scl;
        after.prev_sda = sda;
        if stores {
            rom_data[at] = self.data;
        }
        after
    }

    // Steps the chip under a rule as SCL goes to the level `scl` and SDA stays.
    pub fn write_scl(
        mut self,
        rule: EepromRule,
        rom_data: &mut [u8; Eeprom::ROM_SIZE],
        scl: u8,
    ) -> Eeprom
        ensures { (result ≡ eeprom_after rule self rom_data.old scl self.prev_sda) × (rom_data.new ≡ rom_after self rom_data.old scl self.prev_sda) }
    {
        self.write(rule, rom_data, scl, self.prev_sda)
    }

    // Steps the chip under a rule as SDA goes to the level `sda` and SCL stays.
    pub fn write_sda(
        mut self,
        rule: EepromRule,
        rom_data: &mut [u8; Eeprom::ROM_SIZE],
        sda: u8,
    ) -> Eeprom
        ensures { (result ≡ eeprom_after rule self rom_data.old self.prev_scl sda) × (rom_data.new ≡ rom_after self rom_data.old self.prev_scl sda) }
    {
        self.write(rule, rom_data, self.prev_scl, sda)
    }
}
