// What a board is fitted from, and what follows from it: chips, reader, access. Codes are kept as given, so that a wrong one can be refused.
#![tactic(auto)]

ghost use Rattle.std.specs.Prelude.{◌≡◌};
ghost use Rattle.cart.specs.CartWords.{cart_words, cart_of};
ghost use Rattle.cart.specs.Cart.{empty_cart, has_standard, has_extra, is_datach, is_x24_c02, cart_rule, has_latch, access_of, may_read, may_write, supplies_prg_bank, banks_chr, mapper_listed, sizes_within, codes_listed, rule_listed, cart_refusal};
ghost use Rattle.refusals.specs.Refusals.{number_of};

use eeprom_bits::EepromRule;
use laws::{byte_at, word_at};
use refusals::Refusal;

// A mapper, a mirroring, an access and a chip rule stay numbers: C passes them as given, and `check` refuses one that is not listed.
#[repr(C)]
#[derive(Clone, Copy, Default)]
pub struct Cart {
    pub prg_rom_size: u32,
    pub chr_rom_size: u32,
    pub chr_ram_size: u32,
    pub prg_ram_size: u32,
    pub battery_ext_size: u32,
    pub ciram_size: u32,
    pub ex_ram_size: u32,
    pub mapper_num: u16,
    pub submapper_num: u8,
    pub nes2: u8,
    pub mirroring: u8,
    pub sram_access: u8,
    pub eeprom_rule: u8,
}

impl Cart {
    // The bytes of the window that shows a bank of PRG ROM.
    pub const PRG_WINDOW: u16 = 16384;

    pub const SIZE_LIMIT: u32 = 16777216;

    // The mappers: Bandai's FCG and LZ93D50 boards.
    pub const FCG: u16 = 16;

    pub const LZ93D50_SRAM: u16 = 153;

    pub const DATACH: u16 = 157;

    pub const LZ93D50_X24C01: u16 = 159;

    // The codes of the access. `ACCESS_AS_LOADED` stands for what `load` sets.
    pub const ACCESS_NONE: u8 = 0;

    pub const ACCESS_READ: u8 = 1;

    pub const ACCESS_WRITE: u8 = 2;

    pub const ACCESS_READ_WRITE: u8 = 3;

    pub const ACCESS_AS_LOADED: u8 = 4;

    // The last code of the mirroring: four screens.
    pub const FOUR_SCREEN: u8 = 4;

    // Returns the empty description: all zeros.
    pub fn empty() -> Cart
        ensures { result ≡ empty_cart }
    {
        Cart::default()
    }

    // The fields as words, with their widths in bytes: `WIDTHS[i]` is the width of word i.
    pub const WORDS: usize = 13;

    pub const WIDTHS: [u8; Self::WORDS] = [2, 1, 1, 1, 1, 4, 4, 4, 4, 4, 4, 4, 1];

    // Returns the fields as words.
    pub fn words(self) -> [u64; Self::WORDS]
        ensures { result ≡ cart_words self }
    {
        [
            u64::from(self.mapper_num),
            u64::from(self.submapper_num),
            u64::from(self.nes2),
            u64::from(self.mirroring),
            u64::from(self.sram_access),
            u64::from(self.prg_rom_size),
            u64::from(self.chr_rom_size),
            u64::from(self.chr_ram_size),
            u64::from(self.prg_ram_size),
            u64::from(self.battery_ext_size),
            u64::from(self.ciram_size),
            u64::from(self.ex_ram_size),
            u64::from(self.eeprom_rule),
        ]
    }

    // Returns the description with these words, each cut to its width. A missing word is 0.
    #[tactic(auto, unfolding(crate::specs::CartWords::cart_of))]
    pub fn of_words(words: &[u64]) -> Cart
        ensures { result ≡ cart_of words.now }
    {
        Cart {
            mapper_num: (word_at(words, 0) % 65536) as u16,
            submapper_num: byte_at(words, 1),
            nes2: byte_at(words, 2),
            mirroring: byte_at(words, 3),
            sram_access: byte_at(words, 4),
            prg_rom_size: (word_at(words, 5) % 4294967296) as u32,
            chr_rom_size: (word_at(words, 6) % 4294967296) as u32,
            chr_ram_size: (word_at(words, 7) % 4294967296) as u32,
            prg_ram_size: (word_at(words, 8) % 4294967296) as u32,
            battery_ext_size: (word_at(words, 9) % 4294967296) as u32,
            ciram_size: (word_at(words, 10) % 4294967296) as u32,
            ex_ram_size: (word_at(words, 11) % 4294967296) as u32,
            eeprom_rule: byte_at(words, 12),
        }
    }

    // The Datach Joint ROM System: the card reader and the fixed CHR are its own.
    pub fn is_datach(self) -> bool
        ensures { result ≡ is_datach self }
    {
        self.mapper_num == Self::DATACH
    }

    // Returns whether a standard chip is fitted.
    pub fn has_standard_eeprom(self) -> bool
        ensures { result ≡ has_standard self }
    {
        (self.mapper_num == Self::FCG
            && matches!(self.submapper_num, 0 | 5)
            && self.prg_ram_size == 256)
            || matches!(self.mapper_num, Self::DATACH | Self::LZ93D50_X24C01)
    }

    // The standard chip is an X24C02, where it is fitted, on every mapper but 159.
    pub fn has_x24c02(self) -> bool
        ensures { result ≡ is_x24_c02 self }
    {
        self.has_standard_eeprom() && self.mapper_num != Self::LZ93D50_X24C01
    }

    // Returns the chip rule. An X24C01 is not affected by it.
    pub fn rule(self) -> EepromRule
        ensures { result ≡ cart_rule self }
    {
        EepromRule::from(self.eeprom_rule)
    }

    // Returns whether an extra chip is fitted.
    pub fn has_extra_eeprom(self) -> bool
        ensures { result ≡ has_extra self }
    {
        self.is_datach() && (self.nes2 == 0 || self.prg_ram_size == 128)
    }

    // Whether registers 11 and 12 set a reload that register 10 copies; on 16 with submapper 0 or 4 they set the counter itself.
    pub fn has_irq_latch(self) -> bool
        ensures { result ≡ has_latch self }
    {
        !(self.mapper_num == Self::FCG && matches!(self.submapper_num, 0 | 4))
    }

    // The access in force: the code given, or what `load` sets where that is 4.
    pub fn access(self) -> u8
        ensures { result ≡ access_of self }
    {
        if self.sram_access != Self::ACCESS_AS_LOADED {
            self.sram_access
        } else if self.mapper_num == Self::LZ93D50_SRAM {
            Self::ACCESS_NONE
        } else if self.mapper_num == Self::FCG && !matches!(self.submapper_num, 0 | 5) {
            Self::ACCESS_READ_WRITE
        } else {
            Self::ACCESS_READ
        }
    }

    // Returns whether the access in force lets the devices be read.
    pub fn may_read(self) -> bool
        ensures { result ≡ may_read self }
    {
        matches!(self.access(), Self::ACCESS_READ | Self::ACCESS_READ_WRITE)
    }

    // Returns whether the access in force lets register 13 be written.
    pub fn may_write(self) -> bool
        ensures { result ≡ may_write self }
    {
        matches!(self.access(), Self::ACCESS_WRITE | Self::ACCESS_READ_WRITE)
    }

    // The CHR registers give the high PRG bank: on 153, and on a cart of 32 PRG banks or more.
    pub fn supplies_prg_bank(self) -> bool
        ensures { result ≡ supplies_prg_bank self }
    {
        self.mapper_num == Self::LZ93D50_SRAM
            || self.prg_rom_size / u32::from(Self::PRG_WINDOW) >= 32
    }

    // The CHR registers set the CHR banks: with CHR ROM, and not on 157.
    pub fn banks_chr(self) -> bool
        ensures { result ≡ banks_chr self }
    {
        self.chr_rom_size != 0 && !self.is_datach()
    }

    fn mapper_listed(self) -> bool
        ensures { result ≡ mapper_listed self }
    {
        matches!(
            self.mapper_num,
            Self::FCG | Self::LZ93D50_SRAM | Self::DATACH | Self::LZ93D50_X24C01
        )
    }

    fn sizes_within(self) -> bool
        ensures { result ≡ sizes_within self }
    {
        self.prg_rom_size <= Self::SIZE_LIMIT
            && self.chr_rom_size <= Self::SIZE_LIMIT
            && self.chr_ram_size <= Self::SIZE_LIMIT
            && self.prg_ram_size <= Self::SIZE_LIMIT
            && self.battery_ext_size <= Self::SIZE_LIMIT
            && self.ciram_size <= Self::SIZE_LIMIT
            && self.ex_ram_size <= Self::SIZE_LIMIT
    }

    fn codes_listed(self) -> bool
        ensures { result ≡ codes_listed self }
    {
        self.nes2 <= 1
            && self.mirroring <= Self::FOUR_SCREEN
            && self.sram_access <= Self::ACCESS_AS_LOADED
    }

    fn rule_listed(self) -> bool
        ensures { result ≡ rule_listed self }
    {
        self.eeprom_rule <= EepromRule::DATASHEET
    }

    // Refuses a description that no board is fitted from, with the first refusal that there is: mapper, size, code, rule.
    #[tactic(auto, unfolding(crate::specs::Cart::cart_refusal))]
    pub fn check(self) -> Result<(), Refusal>
        ensures { number_of result ≡ cart_refusal self }
    {
        if !self.mapper_listed() {
            Err(Refusal::MapperUnknown)
        } else if !self.sizes_within() {
            Err(Refusal::SizeTooLarge)
        } else if !self.codes_listed() {
            Err(Refusal::CodeUnlisted)
        } else if !self.rule_listed() {
            Err(Refusal::RuleUnlisted)
        } else {
            Ok(())
        }
    }
}
