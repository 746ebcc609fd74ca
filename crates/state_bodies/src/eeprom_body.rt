// Bodies 4 and 5: a chip with its memory.
ghost use Rattle.std.specs.Prelude.{◌≡◌, ◌+◌, ◌≤◌};
ghost use Rattle.state_bodies.specs.Bodies.{eeprom_bytes, eeprom_at, rom_at, eeprom_length};
ghost use Rattle.state_bodies.specs.FileBuffer.{appended};

use crate::at::{bytes_at, first, unpack};
use crate::file_buffer::FileBuffer;
use eeprom::{Eeprom, EepromModel};

// What stands before the memory.
const HEAD: u16 = 10;

// Returns the length of a chip's body.
#[tactic(auto, using(crate::specs::BodiesLaws::size_within))]
pub fn eeprom_length(model: EepromModel) -> u16
    ensures { (result ≡ eeprom_length model) × (result ≤ 266) }
{
    HEAD + Eeprom::rom_size(model) as u16
}

impl FileBuffer {
    // Appends a chip's body.
    #[tactic(auto, using(crate::specs::FileBufferLaws::appended_two), unfolding(crate::specs::Bodies::eeprom_bytes))]
    pub fn push_eeprom(&mut self, chip: Eeprom, rom_data: [u8; Eeprom::ROM_SIZE])
        ensures { self.new ≡ appended self.old (eeprom_bytes chip rom_data) }
    {
        let size = Eeprom::rom_size(chip.model);
        self.push_words(&eeprom_codes::WIDTHS, &eeprom_codes::words(chip));
        self.extend(first(&rom_data, size));
    }
}

// Reads a chip's body without its memory.
#[tactic(auto, unfolding(crate::specs::Bodies::eeprom_at, laws::specs::Lists::every))]
pub fn eeprom_at(f: &[u8], at: u16) -> Eeprom
    ensures { result ≡ eeprom_at f.now at }
{
    eeprom_codes::of_words(&unpack(f, at, &eeprom_codes::WIDTHS))
}

// The memory of a body at this place, `count` bytes of it, and zeros past them.
#[tactic(auto, unfolding(crate::specs::Bodies::rom_at))]
pub fn rom_at(f: &[u8], at: u16, count: u16) -> [u8; Eeprom::ROM_SIZE]
    ensures { result ≡ rom_at f.now at count }
{
    bytes_at(f, at, HEAD, count)
}
