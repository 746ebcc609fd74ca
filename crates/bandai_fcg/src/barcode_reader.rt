// The Datach card reader: its clock, when the card was inserted, and the card that was put in. Its modules stand beside it in the board.
ghost use Rattle.std.specs.Prelude.{◌≡◌};
ghost use Rattle.bandai_fcg.specs.ReaderWords.{reader_words, reader_of};
ghost use Rattle.bandai_fcg.specs.Reader.{new_reader, tick_reader, counted_reader, input_of, inserted_of};

use laws::{byte_at, word_at};

#[repr(C)]
#[derive(Clone, Copy, Default, PartialEq, Eq)]
pub struct BarcodeReader {
    pub master_clock: u64,
    pub insert_cycle: u64,
    pub new_barcode: u64,
    pub new_barcode_digit_count: u32,
    pub module_count: u8,
}

impl BarcodeReader {
    // The clocks that each module is shown for.
    pub const MODULE_CLOCKS: u64 = 1000;

    // The last clock that a valid reader has: 2^62.
    pub const CLOCK_LIMIT: u64 = 0x4000000000000000;

    // Returns a reader with no card: all zeros.
    pub fn new() -> BarcodeReader
        ensures { result ≡ new_reader }
    {
        BarcodeReader::default()
    }

    // The fields as words, with their widths in bytes: `WIDTHS[i]` is the width of word i.
    pub const WORDS: usize = 5;

    pub const WIDTHS: [u8; Self::WORDS] = [8, 8, 8, 1, 1];

    // Returns the fields as words.
    pub fn words(self) -> [u64; Self::WORDS]
        ensures { result ≡ reader_words self }
    {
        [
            self.master_clock,
            self.insert_cycle,
            self.new_barcode,
            u64::from(self.new_barcode_digit_count),
            u64::from(self.module_count),
        ]
    }

    // Returns the reader with these words, each cut to its width. A missing word is 0.
    #[tactic(auto, unfolding(crate::specs::ReaderWords::reader_of))]
    pub fn of_words(words: &[u64]) -> BarcodeReader
        ensures { result ≡ reader_of words.now }
    {
        BarcodeReader {
            master_clock: word_at(words, 0),
            insert_cycle: word_at(words, 1),
            new_barcode: word_at(words, 2),
            new_barcode_digit_count: u32::from(byte_at(words, 3)),
            module_count: byte_at(words, 4),
        }
    }

    // Advances the clock by one.
    pub fn clock(mut self) -> BarcodeReader
        ensures { result ≡ tick_reader self }
    {
        self.master_clock = self.master_clock.wrapping_add(1);
        self
    }

    // `count` clocks at once.
    pub fn clocks(mut self, count: u32) -> BarcodeReader
        ensures { result ≡ counted_reader count self }
    {
        self.master_clock = self.master_clock.wrapping_add(u64::from(count));
        self
    }

    // A card is put in; it shows no module until `init`.
    pub fn input(mut self, barcode: u64, digit_count: u32) -> BarcodeReader
        ensures { result ≡ input_of barcode digit_count self }
    {
        self.new_barcode = barcode;
        self.new_barcode_digit_count = digit_count;
        self
    }

    // The card is inserted now, with this many modules.
    pub fn inserted(mut self, module_count: u8) -> BarcodeReader
        ensures { result ≡ inserted_of module_count self }
    {
        self.insert_cycle = self.master_clock;
        self.module_count = module_count;
        self
    }
}
