// The device read: the modules are lent.
ghost use Rattle.std.specs.Prelude.{◌≡◌, ℕ, ◌<◌, List};
ghost use Rattle.bandai_fcg.specs.BoardSet.{with_arrays};
ghost use Rattle.bandai_fcg.specs.Board.{eeprom_out, device_value, device_answers, peeked, peek_of};

use crate::board::BandaiFCG;

// Returns the level that the chips give to the data line.
#[tactic(auto, unfolding(crate::specs::Board::eeprom_out))]
pub fn eeprom_out(standard: bool, extra: bool, out: u8, extra_out: u8) -> u8
    ensures { result ≡ eeprom_out standard extra out extra_out }
{
    match (standard, extra) {
        (true, true) => out & extra_out,
        (true, false) => out,
        (false, _) => 0,
    }
}

// Returns what the devices give: the light of the module that the reader shows, OR 16 times the chips' output.
pub fn device_value(light: u8, out: u8) -> u8
    ensures { result ≡ device_value light out }
{
    light | 16u8.wrapping_mul(out)
}

impl BandaiFCG {
    // Returns whether a device answers at the address.
    fn device_answers(self, addr: u16) -> bool
        ensures { result ≡ device_answers addr self }
    {
        matches!(addr, 0x6000..0x8000) && self.cart.may_read()
    }

    // Returns the level that its chips give to the data line.
    fn chips_out(self) -> u8
        ensures { result ≡ eeprom_out self.has_standard_eeprom self.has_extra_eeprom self.standard_eeprom.output self.extra_eeprom.output }
    {
        eeprom_out(
            self.has_standard_eeprom,
            self.has_extra_eeprom,
            self.standard_eeprom.read(),
            self.extra_eeprom.read(),
        )
    }

    // Returns what the devices answer at the address, if any does.
    #[tactic(auto, unfolding(crate::specs::Board::peek_of))]
    pub fn prg_peek(self, modules: &[u8; BandaiFCG::MODULES], addr: u16) -> Option<u8>
        ensures { (s x : List ℕ) → peeked result ≡ peek_of addr (with_arrays self modules.now s x) }
    {
        if self.device_answers(addr) {
            let module = self.module_read(modules);
            Some(device_value(module.light, self.chips_out()))
        } else {
            None
        }
    }
}
