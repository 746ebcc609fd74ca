// The modules of a card, from the left: a quiet zone of 33 light modules, a guard, the left digits, the centre, the right digits, the
// check digit, a guard, and a quiet zone of 32 light modules.
ghost use Rattle.std.specs.Prelude.{◌≡◌, [], ◌++◌, drop, take};
ghost use Rattle.laws.specs.Append.{append, append_all};
ghost use Rattle.digits.specs.Digits.{digits_of, check_digit_of};
ghost use Rattle.barcode.specs.Barcode.{pattern_of, patterns_of, left_of, right_of, right, centre, modules_of, modules_in, stored};

use crate::Modules;
use crate::tables::{LEFT_ODD, RIGHT, parity, pattern};
use digits::{check_digit, digits_of, is_ean13};

// Bar, space, bar.
const GUARD: [u8; 3] = [0, 8, 0];

// Space, bar, space, bar, space.
const CENTRE: [u8; 5] = [8, 0, 8, 0, 8];

// The methods that push add modules behind those that stand there, as far as there is room.
impl Modules {
    // The most modules that a card has.
    pub const CAPACITY: usize = 160;

    // Returns a card without modules: zeros.
    #[tactic(auto, unfolding(crate::specs::Barcode::modules_in, laws::specs::Lists::padded, laws::specs::Lists::blank))]
    fn new() -> Modules
        ensures { result ≡ modules_in [] }
    {
        Modules {
            count: 0,
            modules: [0; Modules::CAPACITY],
        }
    }

    // Returns the modules alone, without the zeros past them.
    pub fn as_slice(&self) -> &[u8]
        ensures { result.now ≡ take self.now.count self.now.modules }
    {
        &self.modules[..usize::from(self.count).min(Modules::CAPACITY)]
    }

    // Adds a module.
    #[tactic(auto, unfolding(laws::specs::Append::append))]
    fn push(&mut self, shade: u8)
        ensures { stored self.new ≡ append 160 (stored self.old) shade }
    {
        let at = usize::from(self.count);
        if at < Modules::CAPACITY {
            self.modules[at] = shade;
            self.count += 1;
        }
    }

    // Adds the modules of a part.
    fn extend(&mut self, part: &[u8])
        ensures { stored self.new ≡ append_all 160 (stored self.old) part.now }
    {
        for shade in part {
            self.push(*shade);
        }
    }

    // Adds the patterns of digits, each in its set, as far as both lists go.
    fn push_digits(&mut self, sets: &[u8], digits: &[u8])
        ensures { stored self.new ≡ append_all 160 (stored self.old) (patterns_of sets.now digits.now) }
    {
        for (set, digit) in sets.iter().zip(digits) {
            self.extend(pattern(*set, *digit));
        }
    }

    // Adds the digits left of the centre: of 13 six in the leading digit's parity, else up to four.
    fn push_left(&mut self, digits: &[u8])
        ensures { stored self.new ≡ append_all 160 (stored self.old) (left_of digits.now) }
    {
        if is_ean13(digits) {
            self.push_digits(parity(digits[0]), &digits[1..]);
        } else {
            self.push_digits(&[LEFT_ODD; 4], digits);
        }
    }

    // Adds the digits right of the centre, without the check digit: of 13 five, else up to three.
    fn push_right(&mut self, digits: &[u8])
        ensures { stored self.new ≡ append_all 160 (stored self.old) (right_of digits.now) }
    {
        if is_ean13(digits) {
            self.push_digits(&[RIGHT; 5], &digits[7..]);
        } else {
            self.push_digits(&[RIGHT; 3], digits.get(4..).unwrap_or(&[]));
        }
    }

    // Adds what stands between the two guards: the left digits, the centre, the right digits and the check digit.
    fn push_symbol(&mut self, digits: &[u8])
        ensures { stored self.new ≡ append_all 160 (stored self.old) (left_of digits.now ++ (centre ++ (right_of digits.now ++ pattern_of right (check_digit_of digits.now)))) }
    {
        self.push_left(digits);
        self.extend(&CENTRE);
        self.push_right(digits);
        self.extend(pattern(RIGHT, check_digit(digits)));
    }
}

// Returns the modules of a card with these digits.
pub fn symbol_of(digits: &[u8]) -> Modules
    ensures { result ≡ modules_in (modules_of digits.now) }
{
    let mut modules = Modules::new();
    modules.extend(&[8; 33]);
    modules.extend(&GUARD);
    modules.push_symbol(digits);
    modules.extend(&GUARD);
    modules.extend(&[8; 32]);
    modules
}

// Returns the modules of a card. A digit count above 20 is as 20.
#[tactic(auto, unfolding(digits::specs::Digits::digits_in), using(laws::proofs::ListsLaws::take_padded))]
pub fn modules_of(number: u64, digit_count: u32) -> Modules
    ensures { result ≡ modules_in (modules_of (digits_of number digit_count)) }
{
    symbol_of(digits_of(number, digit_count).as_slice())
}
