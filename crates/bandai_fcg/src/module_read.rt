// The module read: which module the reader shows, the clocks spent in it, and its light. The modules are lent.
ghost use Rattle.std.specs.Prelude.{◌≡◌, ℕ, List};
ghost use Rattle.bandai_fcg.specs.BoardSet.{with_arrays};
ghost use Rattle.bandai_fcg.specs.Reader.{module_number, module_spent, light_at, module_read_at};
ghost use Rattle.bandai_fcg.specs.Board.{module_read_of};

use crate::barcode_reader::BarcodeReader;
use crate::board::BandaiFCG;

// What the reader shows: the module's number, counted from the insertion on; the clocks spent in it, 0 to 999; its light. On a valid board
// the light is 8 or 0, and past the end of the card it is 0.
#[repr(C)]
#[derive(Clone, Copy, Default)]
pub struct ModuleRead {
    pub number: u64,
    pub spent: u16,
    pub light: u8,
}

// Returns the place of a reader, from its clock and the clock of the insertion: a module's number and the clocks spent in it. If the insertion
// is later, both numbers are 0. The quotient and the remainder here are the only divisions by a module's clocks. They stand in an arm, since a
// conditional move before the division (as of `saturating_sub`) brings the device read to its bar of speed.
fn place_at(clock: u64, insert: u64) -> (u64, u16)
    ensures { result ≡ (module_number clock insert, module_spent clock insert) }
{
    match clock.checked_sub(insert) {
        Some(clocks) => (
            clocks / BarcodeReader::MODULE_CLOCKS,
            (clocks % BarcodeReader::MODULE_CLOCKS) as u16,
        ),
        None => (0, 0),
    }
}

// Returns the light of module n. It is 0 if n is not below the count, or not in the list.
fn light_at(modules: &[u8], count: u8, n: u64) -> u8
    ensures { result ≡ light_at modules.now count n }
{
    let end = modules.len().min(usize::from(count));
    modules[..end].get(n as usize).copied().unwrap_or(0)
}

// Returns what a reader shows: from its clock, the clock of the insertion, and the first `count` of the lent modules. If no reader is fitted,
// all three numbers are 0. The module read, the device read and the session call this function; nothing else finds a module.
#[tactic(auto, unfolding(crate::specs::Reader::module_read_at))]
pub fn module_read_at(
    fitted: bool,
    clock: u64,
    insert: u64,
    count: u8,
    modules: &[u8],
) -> ModuleRead
    ensures { result ≡ module_read_at fitted clock insert count modules.now }
{
    if fitted {
        let (number, spent) = place_at(clock, insert);
        ModuleRead {
            number,
            spent,
            light: light_at(modules, count, number),
        }
    } else {
        ModuleRead::default()
    }
}

impl BandaiFCG {
    // Returns what the board's reader shows.
    #[tactic(auto, unfolding(crate::specs::Board::module_read_of))]
    pub fn module_read(self, modules: &[u8; BandaiFCG::MODULES]) -> ModuleRead
        ensures { (s x : List ℕ) → result ≡ module_read_of (with_arrays self modules.now s x) }
    {
        let reader = self.barcode_reader;
        module_read_at(
            self.has_barcode_reader,
            reader.master_clock,
            reader.insert_cycle,
            reader.module_count,
            modules,
        )
    }
}
