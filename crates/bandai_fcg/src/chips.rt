// Register writes and line changes: the chips' memories are lent. The standard and the extra chip have a method each: a chip's
// flag and memory stand beside the state, so one method for both would take every part of a chip.
ghost use Rattle.std.specs.Prelude.{◌≡◌, ℕ, List};
ghost use Rattle.bandai_fcg.specs.BoardSet.{with_arrays};
ghost use Rattle.bandai_fcg.specs.Board.{takes_write, standard_write, extra_write, scl_write, sda_write, eeprom_ctrl, write_chips, write_register};

use crate::board::BandaiFCG;
use cart::Cart;

impl BandaiFCG {
    // Sets both lines of the standard chip. Does nothing where none is fitted.
    #[tactic(auto, using(crate::proofs::ChipWrites::standard_written), unfolding(crate::specs::Board::standard_write))]
    pub fn write_standard(
        mut self,
        rom: &mut [u8; BandaiFCG::ROM_SIZE],
        scl: u8,
        sda: u8,
    ) -> BandaiFCG
        ensures { (m x : List ℕ) → with_arrays result m rom.new x ≡ standard_write scl sda (with_arrays self m rom.old x) }
    {
        if self.has_standard_eeprom {
            self.standard_eeprom = self.standard_eeprom.write(self.cart.rule(), rom, scl, sda);
        }
        self
    }

    // Sets both lines of the extra chip. Does nothing where none is fitted.
    #[tactic(auto, using(crate::proofs::ChipWrites::extra_written), unfolding(crate::specs::Board::extra_write))]
    pub fn write_extra(mut self, rom: &mut [u8; BandaiFCG::ROM_SIZE], scl: u8, sda: u8) -> BandaiFCG
        ensures { (m s : List ℕ) → with_arrays result m s rom.new ≡ extra_write scl sda (with_arrays self m s rom.old) }
    {
        if self.has_extra_eeprom {
            self.extra_eeprom = self.extra_eeprom.write(self.cart.rule(), rom, scl, sda);
        }
        self
    }

    // Sets SCL of the extra chip and keeps its SDA.
    #[tactic(auto, using(crate::proofs::ChipWrites::extra_written), unfolding(crate::specs::Board::extra_write))]
    fn write_extra_scl(mut self, rom: &mut [u8; BandaiFCG::ROM_SIZE], scl: u8) -> BandaiFCG
        ensures { (m s : List ℕ) → with_arrays result m s rom.new ≡ scl_write scl (with_arrays self m s rom.old) }
    {
        if self.has_extra_eeprom {
            self.extra_eeprom = self.extra_eeprom.write_scl(self.cart.rule(), rom, scl);
        }
        self
    }

    // Sets SDA of the extra chip and keeps its SCL.
    #[tactic(auto, using(crate::proofs::ChipWrites::extra_written), unfolding(crate::specs::Board::extra_write))]
    fn write_extra_sda(mut self, rom: &mut [u8; BandaiFCG::ROM_SIZE], sda: u8) -> BandaiFCG
        ensures { (m s : List ℕ) → with_arrays result m s rom.new ≡ sda_write sda (with_arrays self m s rom.old) }
    {
        if self.has_extra_eeprom {
            self.extra_eeprom = self.extra_eeprom.write_sda(self.cart.rule(), rom, sda);
        }
        self
    }

    // Sets both lines of the standard chip, then SDA of the extra chip, as register 13 does.
    fn write_eeprom_ctrl(
        self,
        standard_rom: &mut [u8; BandaiFCG::ROM_SIZE],
        extra_rom: &mut [u8; BandaiFCG::ROM_SIZE],
        val: u8,
    ) -> BandaiFCG
        ensures { (m : List ℕ) → with_arrays result m standard_rom.new extra_rom.new ≡ eeprom_ctrl val (with_arrays self m standard_rom.old extra_rom.old) }
    {
        let sda = val / 64 % 2;
        let bandai = self.write_standard(standard_rom, val / 32 % 2, sda);
        bandai.write_extra_sda(extra_rom, sda)
    }

    // Applies to the chips a write of `val` to the register `reg` of the sixteen.
    #[tactic(auto, unfolding(crate::specs::Board::write_chips))]
    fn write_chips(
        self,
        standard_rom: &mut [u8; BandaiFCG::ROM_SIZE],
        extra_rom: &mut [u8; BandaiFCG::ROM_SIZE],
        reg: u8,
        val: u8,
    ) -> BandaiFCG
        ensures { (m : List ℕ) → with_arrays result m standard_rom.new extra_rom.new ≡ write_chips reg val (with_arrays self m standard_rom.old extra_rom.old) }
    {
        if self.cart.is_datach() && reg <= 3 {
            self.write_extra_scl(extra_rom, val / 8 % 2)
        } else if reg == 13 && self.cart.mapper_num != Cart::LZ93D50_SRAM && self.cart.may_write() {
            self.write_eeprom_ctrl(standard_rom, extra_rom, val)
        } else {
            self
        }
    }

    // Returns whether a write to the address reaches a register.
    fn takes_write(self, addr: u16) -> bool
        ensures { result ≡ takes_write addr self }
    {
        addr >= 0x8000 || (addr >= 0x6000 && !self.regs.ram_mapped(self.cart))
    }

    // Writes a register: the registers first, then the chips' lines.
    #[tactic(auto, unfolding(crate::specs::Board::write_register))]
    pub fn write_register(
        mut self,
        standard_rom: &mut [u8; BandaiFCG::ROM_SIZE],
        extra_rom: &mut [u8; BandaiFCG::ROM_SIZE],
        addr: u16,
        val: u8,
    ) -> BandaiFCG
        ensures { (m : List ℕ) → with_arrays result m standard_rom.new extra_rom.new ≡ write_register addr val (with_arrays self m standard_rom.old extra_rom.old) }
    {
        if self.takes_write(addr) {
            let reg = (addr % 16) as u8;
            self.regs = self.regs.write(self.cart, reg, val);
            self.write_chips(standard_rom, extra_rom, reg, val)
        } else {
            self
        }
    }
}
