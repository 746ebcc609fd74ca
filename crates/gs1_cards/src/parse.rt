// A line of the input: a number, a space, a digit count.
ghost use Rattle.std.specs.Prelude.{◌≡◌, ◌≤◌, length};
ghost use Rattle.gs1_cards.specs.Cards.{word_length, card_in};

use card_words::{Card, CardError, card_of};

// How many bytes stand before the first space.
fn word_length(line: &[u8]) -> usize
    ensures { (result ≡ word_length line.now) × (result ≤ length line.now) }
{
    line.iter().take_while(|b| **b != b' ').count()
}

// The card that a line names: the number stands before its first space, the digit count after it.
#[tactic(auto, unfolding(crate::specs::Cards::card_in))]
pub fn card_in(line: &[u8]) -> Result<Card, CardError>
    ensures { result ≡ card_in line.now }
{
    let at = word_length(line);
    card_of(&line[..at], line.get(at + 1..).unwrap_or(&[]))
}
