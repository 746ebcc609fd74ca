// The digits that a list shows if it is an 8-digit card's, and if it is a 13-digit card's.
ghost use Rattle.std.specs.Prelude.{◌≡◌, ◌≤◌, length, take, drop};
ghost use Rattle.laws.specs.Append.{append_all};
ghost use Rattle.digits.specs.Digits.{digits_in, stored};
ghost use Rattle.card_decode.specs.Decode.{read_in, sets_in, shown8, shown13};

use crate::search::{digit_in, leading_of, set_of};
use barcode::{LEFT_ODD, RIGHT};
use digits::Digits;

// Returns seven modules from a place on, fewer where the list ends.
fn seven(list: &[u8], at: usize) -> &[u8]
    ensures { result.now ≡ take 7 (drop at list.now) }
{
    let rest = list.get(at..).unwrap_or(&[]);
    &rest[..rest.len().min(7)]
}

// Adds the digits that stand in the list from a place on, seven modules each, each by its set.
fn read_in(digits: &mut Digits, sets: &[u8], list: &[u8], at: usize)
    requires { (length sets.now ≤ 20) × (at ≤ 160) }
    ensures { stored digits.new ≡ append_all 20 (stored digits.old) (read_in sets.now (drop at list.now)) }
{
    for (i, set) in sets.iter().enumerate() {
        digits.push(digit_in(*set, seven(list, at + 7 * i)));
    }
}

// Returns the sets of the six digits left of the centre of a 13-digit card's list.
fn sets_in(list: &[u8]) -> [u8; 6]
    ensures { result ≡ sets_in 6 (drop 36 list.now) }
{
    [36, 43, 50, 57, 64, 71].map(|at| set_of(seven(list, at)))
}

// Returns the digits of the list as an 8-digit card's: four digits left of the centre, four right of it.
pub fn shown8(list: &[u8]) -> Digits
    ensures { result ≡ digits_in (shown8 list.now) }
{
    let mut digits = Digits::new();
    read_in(&mut digits, &[LEFT_ODD; 4], list, 36);
    read_in(&mut digits, &[RIGHT; 4], list, 69);
    digits
}

// Returns the digits of the list as a 13-digit card's: the leading digit by the sets, six digits left of the centre, six right of it.
pub fn shown13(list: &[u8]) -> Digits
    ensures { result ≡ digits_in (shown13 list.now) }
{
    let mut digits = Digits::new();
    let sets = sets_in(list);
    digits.push(leading_of(&sets));
    read_in(&mut digits, &sets, list, 36);
    read_in(&mut digits, &[RIGHT; 6], list, 83);
    digits
}
