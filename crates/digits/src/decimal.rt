// The decimal digits of a card's number.
ghost use Rattle.std.specs.Prelude.{◌≡◌, [], min, take};
ghost use Rattle.laws.specs.Append.{append, append_all};
ghost use Rattle.laws.specs.Decimal.{decimal, zeros_before};
ghost use Rattle.digits.specs.Digits.{digits_of, is_ean13, digits_in, stored};

use crate::Digits;

// Tells whether there are exactly 13 digits. They are encoded in one way, any other number of digits in the other.
pub fn is_ean13(digits: &[u8]) -> bool
    ensures { result ≡ is_ean13 digits.now }
{
    digits.len() == 13
}

impl Digits {
    // Returns a card without digits: zeros.
    #[tactic(auto, unfolding(crate::specs::Digits::digits_in, laws::specs::Lists::padded, laws::specs::Lists::blank))]
    pub fn new() -> Digits
        ensures { result ≡ digits_in [] }
    {
        Digits {
            len: 0,
            digit: [0; 20],
        }
    }

    // Returns the digits alone, without the zeros past them.
    pub fn as_slice(&self) -> &[u8]
        ensures { result.now ≡ take self.now.len self.now.digit }
    {
        &self.digit[..self.len.min(self.digit.len())]
    }

    // Adds a digit where there is room. Full digits are unchanged.
    #[tactic(auto, unfolding(laws::specs::Append::append))]
    pub fn push(&mut self, digit: u8)
        ensures { stored self.new ≡ append 20 (stored self.old) digit }
    {
        if self.len < self.digit.len() {
            self.digit[self.len] = digit;
            self.len += 1;
        }
    }

    // Adds the digits of n: at least `need` of them, at most `room`.
    fn push_decimal(&mut self, room: u8, need: u32, n: u64)
        ensures { stored self.new ≡ append_all 20 (stored self.old) (zeros_before (min need room) (decimal room n)) }
    {
        if room > 0 && (need > 0 || n > 0) {
            self.push_decimal(room - 1, need.saturating_sub(1), n / 10);
            self.push((n % 10) as u8);
        }
    }
}

// Returns the digits of a card: the number's, padded on the left with zeros to the digit count, at least one. A count above 20 is as 20.
pub fn digits_of(number: u64, digit_count: u32) -> Digits
    ensures { result ≡ digits_in (digits_of number digit_count) }
{
    let mut digits = Digits::new();
    digits.push_decimal(20, digit_count.max(1), number);
    digits
}
