// Clocks, and the reader's card: an insertion is lent the modules.
ghost use Rattle.std.specs.Prelude.{◌≡◌, ℕ, List};
ghost use Rattle.bandai_fcg.specs.BoardSet.{with_arrays};
ghost use Rattle.bandai_fcg.specs.Board.{tick, ticks, with_input, init_of};

use crate::board::BandaiFCG;
use barcode::modules_of;

impl BandaiFCG {
    // Takes one clock.
    #[tactic(auto, unfolding(crate::specs::Board::tick))]
    pub fn clock(mut self) -> BandaiFCG
        ensures { result ≡ tick self }
    {
        self.regs = self.regs.clock();
        if self.has_barcode_reader {
            self.barcode_reader = self.barcode_reader.clock();
        }
        self
    }

    // Takes `count` clocks, in the time of one.
    #[tactic(auto, using(crate::proofs::BoardLaws::counted_ticks_lem))]
    pub fn clocks(mut self, count: u32) -> BandaiFCG
        ensures { result ≡ ticks count self }
    {
        self.regs = self.regs.clocks(count);
        if self.has_barcode_reader {
            self.barcode_reader = self.barcode_reader.clocks(count);
        }
        self
    }

    // Puts a card into the reader. No module changes until `init`.
    #[tactic(auto, unfolding(crate::specs::Board::with_input))]
    pub fn input(mut self, barcode: u64, digit_count: u32) -> BandaiFCG
        ensures { result ≡ with_input barcode digit_count self }
    {
        self.barcode_reader = self.barcode_reader.input(barcode, digit_count);
        self
    }

    // Inserts the card: its modules are shown from this clock on.
    #[tactic(auto, unfolding(crate::specs::Board::init_of))]
    pub fn init(mut self, modules: &mut [u8; BandaiFCG::MODULES]) -> BandaiFCG
        ensures { (s x : List ℕ) → with_arrays result modules.new s x ≡ init_of (with_arrays self modules.old s x) }
    {
        let reader = self.barcode_reader;
        let shown = modules_of(reader.new_barcode, reader.new_barcode_digit_count);
        self.barcode_reader = reader.inserted(shown.count);
        let fresh = shown.modules;
        *modules = fresh;
        self
    }
}
