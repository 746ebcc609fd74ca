// The check on a list of modules: the digits of the card that yields it, or a refusal.
//
// It decodes what stands there, whatever that is, encodes it again, and compares.
#![tactic(auto)]

mod search;
mod shown;

ghost use Rattle.std.specs.Prelude.{◌≡◌, take};
ghost use Rattle.card_decode.specs.Decode.{is_yielded, answer_of, decoded_of};

use barcode::symbol_of;
use digits::Digits;
use refusals::Refusal;
use shown::{shown8, shown13};

// Tells whether a card with these digits yields the list.
fn yields(digits: &Digits, list: &[u8]) -> bool
    ensures { result ≡ is_yielded (take digits.now.len digits.now.digit) list.now }
{
    let modules = symbol_of(digits.as_slice());
    modules.as_slice() == list
}

// Returns the 8 or 13 digits of the card that yields a list, the right check digit last. Refuses a list that no such card yields.
pub fn decode(list: &[u8]) -> Result<Digits, Refusal>
    ensures { answer_of result ≡ decoded_of list.now }
{
    let eight = shown8(list);
    if yields(&eight, list) {
        return Ok(eight);
    }
    let thirteen = shown13(list);
    if yields(&thirteen, list) {
        return Ok(thirteen);
    }
    Err(Refusal::NoSuchCard)
}
