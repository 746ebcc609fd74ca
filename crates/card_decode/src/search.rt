// Searches in the tables of the bar code: the digit whose pattern stands there, its set, the leading digit.
ghost use Rattle.std.specs.Prelude.{◌≡◌, ◌<◌, ℕ, List};
ghost use Rattle.laws.specs.Search.{found};
ghost use Rattle.card_decode.specs.Decode.{digit_in, set_of, leading_of};

use barcode::{LEFT_EVEN, LEFT_ODD, parity, pattern};

// Returns the largest digit whose entry in a table is the part, 0 where there is none.
fn found<'a, F: Fn(u8) -> &'a [u8]>(part: &[u8], entry: F) -> u8
    requires { F.IsAlwaysCallable entry }
    ensures digit { result < 10 }
    ensures entry { (f : ℕ → List ℕ) → ((k : ℕ) (r : _) → F.post entry k r → r.now ≡ f k) → result ≡ found f part.now 10 }
{
    for digit in (0..10).rev() {
        if part == entry(digit) {
            return digit;
        }
    }
    0
}

// Returns the digit whose pattern in this set the modules are, 0 where there is none.
pub fn digit_in(set: u8, part: &[u8]) -> u8
    ensures { (result ≡ digit_in set part.now) × (result < 10) }
{
    found(part, |digit| pattern(set, digit))
}

// Returns the set that the modules left of the centre belong to: left even where they are a pattern of it, else left odd.
pub fn set_of(part: &[u8]) -> u8
    ensures { result ≡ set_of part.now }
{
    if part == pattern(LEFT_EVEN, digit_in(LEFT_EVEN, part)) {
        LEFT_EVEN
    } else {
        LEFT_ODD
    }
}

// Returns the leading digit that gives these sets, 0 where there is none.
pub fn leading_of(sets: &[u8]) -> u8
    ensures { result ≡ leading_of sets.now }
{
    found(sets, |digit| parity(digit))
}
