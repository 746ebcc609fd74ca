// The check digit of a card. The one that was supplied is ignored.
ghost use Rattle.std.specs.Prelude.{◌≡◌, ◌%◌};
ghost use Rattle.digits.specs.Digits.{weighed, check_digit_of};

use crate::decimal::is_ean13;

// The weights of the first twelve of 13 digits.
const WEIGHTS_LONG: [u8; 12] = [1, 3, 1, 3, 1, 3, 1, 3, 1, 3, 1, 3];

// The weights of up to seven digits of any other number of them.
const WEIGHTS_SHORT: [u8; 7] = [3, 1, 3, 1, 3, 1, 3];

// Returns the sum of the digits, each times its weight, modulo 10.
fn weighed(weights: &[u8], digits: &[u8]) -> u32
    ensures { result ≡ weighed weights.now digits.now % 10 }
{
    let mut sum = 0;
    for (weight, digit) in weights.iter().zip(digits) {
        sum = (sum + u32::from(*weight) * u32::from(*digit)) % 10;
    }
    sum
}

// Returns the check digit of a card's digits: of 13 the first twelve count, else up to seven.
#[tactic(auto, unfolding(crate::specs::Digits::check_digit_of, crate::specs::Digits::weights))]
pub fn check_digit(digits: &[u8]) -> u8
    ensures { result ≡ check_digit_of digits.now }
{
    let sum = if is_ean13(digits) {
        weighed(&WEIGHTS_LONG, digits)
    } else {
        weighed(&WEIGHTS_SHORT, digits)
    };
    ((10 - sum) % 10) as u8
}
