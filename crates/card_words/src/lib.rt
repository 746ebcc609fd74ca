// A card in words, as a line or a command names it: its number and its digit count, both decimal.
#![tactic(auto)]

ghost use Rattle.std.specs.Prelude.{◌≡◌};
ghost use Rattle.number.specs.Number.{as_number};
ghost use Rattle.card_words.specs.Words.{card_in, card_of};

use number::{NumberError, number_in};

// What two words name.
#[derive(Clone, Copy)]
pub struct Card {
    pub number: u64,
    pub digits: u32,
}

// Why two words name no card.
#[derive(Clone, Copy, PartialEq, Eq, Debug)]
pub enum CardError {
    NumberNotDecimal,
    DigitsNotDecimal,
    // The number does not fit 64 bits.
    NumberTooLarge,
    // There are more digits than a card has.
    DigitsTooMany,
}

// The card of what the two words stand for.
#[tactic(auto, unfolding(crate::specs::Words::card_in))]
fn card_in(n: Result<u64, NumberError>, d: Result<u64, NumberError>) -> Result<Card, CardError>
    ensures { result ≡ card_in (as_number n) (as_number d) }
{
    match (n, d) {
        (Err(NumberError::NotANumber), _) => Err(CardError::NumberNotDecimal),
        (_, Err(NumberError::NotANumber)) => Err(CardError::DigitsNotDecimal),
        (Err(NumberError::TooLarge), _) => Err(CardError::NumberTooLarge),
        (Ok(number), Ok(digits)) if digits <= barcode::MAX_DIGITS as u64 => Ok(Card {
            number,
            digits: digits as u32,
        }),
        _ => Err(CardError::DigitsTooMany),
    }
}

// The card that two words name.
#[tactic(auto, unfolding(crate::specs::Words::card_of))]
pub fn card_of(number: &[u8], digits: &[u8]) -> Result<Card, CardError>
    ensures { result ≡ card_of number.now digits.now }
{
    card_in(number_in(number, false), number_in(digits, false))
}
