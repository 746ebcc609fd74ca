// The bar code of a card: the modules that the reader shows, of the digits and the check digit of crate digits.
//
// In the Rust this is the body of `BarcodeReader::init`. A module is GS1's word for the narrowest bar or space: 8 is light, GS1's
// space, and 0 is dark.
#![tactic(auto)]

mod symbol;
mod tables;

ghost use Rattle.std.specs.Prelude.{◌≡◌};
ghost use Rattle.barcode.specs.Barcode.{barcode_of, coded_of};

use digits::{Digits, check_digit, digits_of};
use refusals::Refusal;
pub use symbol::{modules_of, symbol_of};
pub use tables::{LEFT_EVEN, LEFT_ODD, RIGHT, parity, pattern};

// The most digits that a card has; each number of 64 bits fits.
pub const MAX_DIGITS: u32 = 20;

// The modules of a card in the order in which the reader shows them, and zeros past them.
//
// The array has its count beside it since the modules cross to C, and no module stands on a heap.
#[repr(C)]
#[derive(Clone, Copy)]
pub struct Modules {
    pub count: u8,
    pub modules: [u8; Modules::CAPACITY],
}

// What a card is encoded to.
#[derive(Clone, Copy)]
pub struct Barcode {
    pub digits: Digits,
    pub check: u8,
    pub modules: Modules,
}

// Returns the digits, the check digit and the modules of a card. Refuses a digit count above 20.
#[tactic(auto, unfolding(crate::specs::Barcode::barcode_of, crate::specs::Barcode::encoded, crate::specs::Barcode::refused, digits::specs::Digits::digits_in), using(laws::proofs::ListsLaws::take_padded))]
pub fn barcode_of(number: u64, digit_count: u32) -> Result<Barcode, Refusal>
    ensures { coded_of result ≡ barcode_of number digit_count }
{
    if digit_count > MAX_DIGITS {
        return Err(Refusal::DigitCount);
    }
    let digits = digits_of(number, digit_count);
    Ok(Barcode {
        digits,
        check: check_digit(digits.as_slice()),
        modules: symbol_of(digits.as_slice()),
    })
}
