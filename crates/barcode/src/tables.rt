// The constant tables of the bar code.
ghost use Rattle.std.specs.Prelude.{◌≡◌};
ghost use Rattle.barcode.specs.Barcode.{pattern_of, parity_of};

// The thirty digit patterns of seven modules, one after the other: left odd of 0 to 9, left even, right. 8 is light, 0 dark.
pub const PATTERNS: [u8; 210] = [
    8, // left odd 0
    8, 8, 0, 0, 8, 0, 8, // left odd 1
    8, 0, 0, 8, 8, 0, 8, // left odd 2
    8, 0, 8, 8, 0, 0, 8, // left odd 3
    0, 0, 0, 0, 8, 0, 8, // left odd 4
    0, 8, 8, 8, 0, 0, 8, // left odd 5
    0, 0, 8, 8, 8, 0, 8, // left odd 6
    0, 8, 0, 0, 0, 0, 8, // left odd 7
    0, 0, 0, 8, 0, 0, 8, // left odd 8
    0, 0, 8, 0, 0, 0, 8, // left odd 9
    8, 8, 0, 8, 0, 0, 8, // left even 0
    0, 8, 8, 0, 0, 0, 8, // left even 1
    0, 0, 8, 8, 0, 0, 8, // left even 2
    8, 0, 0, 8, 0, 0, 8, // left even 3
    0, 8, 8, 8, 8, 0, 8, // left even 4
    8, 0, 0, 0, 8, 0, 8, // left even 5
    0, 0, 0, 8, 8, 0, 8, // left even 6
    8, 8, 8, 0, 8, 0, 8, // left even 7
    8, 0, 8, 8, 8, 0, 8, // left even 8
    8, 8, 0, 8, 8, 0, 8, // left even 9
    8, 0, 8, 0, 0, 0, 0, // right 0
    0, 0, 8, 8, 0, 8, 0, // right 1
    0, 8, 8, 0, 0, 8, 0, // right 2
    0, 8, 0, 0, 8, 8, 0, // right 3
    8, 8, 8, 8, 0, 8, 0, // right 4
    8, 0, 0, 0, 8, 8, 0, // right 5
    8, 8, 0, 0, 0, 8, 0, // right 6
    8, 0, 8, 8, 8, 8, 0, // right 7
    8, 8, 8, 0, 8, 8, 0, // right 8
    8, 8, 0, 8, 8, 8, 0, // right 9
    0, 0, 8, 0, 8, 8,
];

// For a leading digit, the sets of the six digits after it: 0 left odd, 10 left even.
pub const PARITIES: [u8; 60] = [
    0, // leading digit 0
    0, 0, 0, 0, 0, 0, // leading digit 1
    0, 10, 0, 10, 10, 0, // leading digit 2
    0, 10, 10, 0, 10, 0, // leading digit 3
    0, 10, 10, 10, 0, 0, // leading digit 4
    10, 0, 0, 10, 10, 0, // leading digit 5
    10, 10, 0, 0, 10, 0, // leading digit 6
    10, 10, 10, 0, 0, 0, // leading digit 7
    10, 0, 10, 0, 10, 0, // leading digit 8
    10, 0, 10, 10, 0, 0, // leading digit 9
    10, 10, 0, 10, 0,
];

// Where each set starts in the list of patterns. A set is this number, since `pattern_of` of specs/Barcode.antt adds the digit to it.
pub const LEFT_ODD: u8 = 0;

pub const LEFT_EVEN: u8 = 10;

pub const RIGHT: u8 = 20;

// Returns the pattern of a digit in a set, none past the thirty.
pub fn pattern(set: u8, digit: u8) -> &'static [u8]
    ensures { result.now ≡ pattern_of set digit }
{
    let at = (usize::from(set) + usize::from(digit)) * 7;
    PATTERNS.get(at..at + 7).unwrap_or(&[])
}

// Returns the sets of the six digits after a leading digit, none past the ten.
pub fn parity(digit: u8) -> &'static [u8]
    ensures { result.now ≡ parity_of digit }
{
    let at = usize::from(digit) * 6;
    PARITIES.get(at..at + 6).unwrap_or(&[])
}
