// The page tables of a board, by its cart and registers.
ghost use Rattle.std.specs.Prelude.{◌≡◌};
ghost use Rattle.molbitak_views.specs.Tables.{crossed};
ghost use Rattle.pages.specs.Pages.{tables_of};

use cart::Cart;
use pages::{PageTables, update_banks};
use regs::Regs;

// The entries of both tables, and the refusal, which is 0: tables that are made are not refused.
#[repr(C)]
#[derive(Clone, Copy)]
pub struct PageTablesC {
    pub prg: [u32; 64],
    pub chr: [u32; 16],
    pub refusal: u8,
}

// Returns both page tables.
#[unsafe(no_mangle)]
pub extern "C" fn molbitak_page_tables(cart: Cart, regs: Regs) -> PageTablesC
    ensures { crossed result ≡ tables_of cart regs }
{
    let PageTables { prg, chr } = update_banks(cart, regs);
    PageTablesC {
        prg,
        chr,
        refusal: 0,
    }
}
