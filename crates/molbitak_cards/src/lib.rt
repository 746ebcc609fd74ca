// The boundary's check on a list of modules. The list crosses as a pointer and a length.
#![tactic(auto)]

ghost use Rattle.std.specs.Prelude.{◌≡◌};
ghost use Rattle.card_decode.specs.Decode.{decoded_of};

use card_decode::decode;
use digits::Digits;
use refusals::number_of;

// The digits that a list shows, or the number of its refusal and no digits. The number stands beside the digits since both cross to C.
#[repr(C)]
#[derive(Clone, Copy)]
pub struct Decoded {
    pub digits: Digits,
    pub refusal: u8,
}

// Returns the 8 or 13 digits of the card that yields a list, or the refusal and no digits.
#[unsafe(no_mangle)]
pub extern "C" fn molbitak_decode(list: &[u8]) -> Decoded
    ensures digits { result.digits ≡ (decoded_of list.now).digits }
    ensures refusal { result.refusal ≡ (decoded_of list.now).refusal }
{
    let outcome = decode(list);
    Decoded {
        refusal: number_of(&outcome),
        digits: outcome.unwrap_or(Digits::new()),
    }
}
