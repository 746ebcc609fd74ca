// The digits of a card, and its check digit.
//
// The Rust writes the digits into a `String` in `BarcodeReader::barcode`, and adds up for the check digit in `BarcodeReader::init`.
#![tactic(auto)]

mod check;
mod decimal;

pub use check::check_digit;
pub use decimal::{digits_of, is_ean13};

// The digits of a card, most significant first, and zeros past them.
//
// The array has its length beside it since the digits cross to C, and no digit stands on a heap.
#[repr(C)]
#[derive(Clone, Copy)]
pub struct Digits {
    pub len: usize,
    pub digit: [u8; 20],
}
