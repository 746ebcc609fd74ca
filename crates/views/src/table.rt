// The two page tables of a board.
ghost use Rattle.std.specs.Prelude.{◌≡◌};
ghost use Rattle.views.specs.Views.{table_of};

// A page table, by the memory that it maps.
#[derive(Clone, Copy, PartialEq, Eq, Debug)]
pub enum Table {
    // The pages that the CPU sees.
    Prg,
    // The pages that the PPU sees.
    Chr,
}

impl Table {
    // Returns the table of CHR or of PRG.
    pub fn of(chr: bool) -> Self
        ensures { result ≡ table_of chr }
    {
        if chr { Table::Chr } else { Table::Prg }
    }
}
