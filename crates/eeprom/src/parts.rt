// The parts that several cases of a step share: entering a mode, fetching a byte, advancing the word address, ending a byte.
ghost use Rattle.std.specs.Prelude.{◌≡◌, ◌≢◌, ◌+◌, ◌%◌};
ghost use Rattle.eeprom.specs.State.{with_mode, with_next_mode};
ghost use Rattle.eeprom.specs.Eeprom.{size, fresh, fetched, onward};

use crate::{Eeprom, EepromMode, EepromModel};

// Returns the word address after `addr`, which wraps at the model's size.
fn next_addr(model: EepromModel, addr: u8) -> u8
    ensures { result ≡ (addr + 1) % size model }
{
    let next = addr.wrapping_add(1);
    match model {
        EepromModel::X24C01 => next & 0x7F,
        EepromModel::X24C02 => next,
    }
}

impl Eeprom {
    // Sets the mode. A mode is set alone, over `..self`, for speed: together with numbers, or by a plain store, it made each line change up to a
    // fifth slower.
    pub(crate) fn with_mode(self, mode: EepromMode) -> Eeprom
        ensures { result ≡ with_mode mode self }
    {
        Eeprom { mode, ..self }
    }

    // Sets the mode that follows an acknowledge.
    pub(crate) fn with_next_mode(self, next_mode: EepromMode) -> Eeprom
        ensures { result ≡ with_next_mode next_mode self }
    {
        Eeprom { next_mode, ..self }
    }

    // Enters a mode at its start: no bit has passed, and the data line is released.
    pub(crate) fn fresh(self, mode: EepromMode) -> Eeprom
        ensures { result ≡ fresh mode self }
    {
        let mut s = self.with_mode(mode);
        s.counter = 0;
        s.output = 1;
        s
    }

    // Fetches `byte`, to be sent after the acknowledge.
    pub(crate) fn fetched(self, byte: u8) -> Eeprom
        ensures { result ≡ fetched byte self }
    {
        let mut s = self.with_next_mode(EepromMode::Read);
        s.data = byte;
        s
    }

    // Advances the word address by one.
    pub(crate) fn advance(mut self) -> Eeprom
        ensures { result ≡ onward self }
    {
        self.addr = next_addr(self.model, self.addr);
        self
    }

    // Ends a byte by `ending` if all eight bits have passed.
    pub(crate) fn full<F: FnOnce(Eeprom) -> Eeprom>(self, ending: F) -> Eeprom
        requires { F.IsAlwaysCallable ending }
        ensures ends { self.counter ≡ 8 → F.post ending self result }
        ensures stays { self.counter ≢ 8 → result ≡ self }
    {
        if self.counter == 8 {
            ending(self)
        } else {
            self
        }
    }
}
