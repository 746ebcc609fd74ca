// Body 3: the card reader with its modules.
ghost use Rattle.std.specs.Prelude.{◌≡◌, ◌+◌, ◌≤◌};
ghost use Rattle.state_bodies.specs.Bodies.{reader_bytes, reader_at, modules_at, reader_length};
ghost use Rattle.state_bodies.specs.FileBuffer.{appended};

use crate::at::{bytes_at, first, unpack};
use crate::file_buffer::FileBuffer;
use bandai_fcg::barcode_reader::BarcodeReader;
use bandai_fcg::board::BandaiFCG;

// What stands before the modules.
const HEAD: u16 = 26;

// Returns the length of body 3.
pub fn reader_length(reader: BarcodeReader) -> u16
    ensures { (result ≡ reader_length reader) × (result ≤ 281) }
{
    HEAD + reader.module_count as u16
}

impl FileBuffer {
    // Appends body 3.
    #[tactic(auto, using(crate::specs::FileBufferLaws::appended_two), unfolding(crate::specs::Bodies::reader_bytes))]
    pub fn push_reader(&mut self, reader: BarcodeReader, modules: [u8; BandaiFCG::MODULES])
        ensures { self.new ≡ appended self.old (reader_bytes reader modules) }
    {
        let count = reader.module_count as usize;
        self.push_words(&BarcodeReader::WIDTHS, &reader.words());
        self.extend(first(&modules, count));
    }
}

// Reads body 3 without its modules.
#[tactic(auto, unfolding(crate::specs::Bodies::reader_at, laws::specs::Lists::every))]
pub fn reader_at(f: &[u8], at: u16) -> BarcodeReader
    ensures { result ≡ reader_at f.now at }
{
    BarcodeReader::of_words(&unpack(f, at, &BarcodeReader::WIDTHS))
}

// The modules of a body at this place, `count` of them, and zeros past them.
#[tactic(auto, unfolding(crate::specs::Bodies::modules_at))]
pub fn modules_at(f: &[u8], at: u16, count: u8) -> [u8; BandaiFCG::MODULES]
    ensures { result ≡ modules_at f.now at count }
{
    bytes_at(f, at, HEAD, count as u16)
}
