// Body 1: what the board was fitted from. In files of the old form it ends before the chip rule.
ghost use Rattle.std.specs.Prelude.{◌≡◌, ◌≤◌};
ghost use Rattle.state_bodies.specs.Bodies.{cart_bytes, cart_length, cart_at};
ghost use Rattle.state_bodies.specs.FileBuffer.{appended};

use crate::at::unpack;
use crate::file_buffer::FileBuffer;
use cart::Cart;

// The form of a file, by its body 1: the old one has no chip rule, and is read and never written.
#[derive(Clone, Copy, PartialEq, Eq)]
pub enum FileForm {
    Old,
    Current,
}

// The bytes of body 1 in each form, and the words that the old one has.
pub const OLD_CART_LENGTH: u16 = 34;

pub const CART_LENGTH: u16 = 35;

const OLD_WORDS: usize = 12;

// Returns the length of body 1.
pub fn cart_length(form: FileForm) -> u16
    ensures { (result ≡ cart_length form) × (result ≤ 35) }
{
    match form {
        FileForm::Old => OLD_CART_LENGTH,
        FileForm::Current => CART_LENGTH,
    }
}

impl FileBuffer {
    // Appends body 1.
    #[tactic(auto, unfolding(crate::specs::Bodies::cart_bytes))]
    pub fn push_cart(&mut self, form: FileForm, cart: Cart)
        ensures { self.new ≡ appended self.old (cart_bytes form cart) }
    {
        let words = cart.words();
        match form {
            FileForm::Old => self.push_words(&Cart::WIDTHS, &words[..OLD_WORDS]),
            FileForm::Current => self.push_words(&Cart::WIDTHS, &words),
        }
    }
}

// Reads body 1. Without a chip rule it is read as rule 0.
#[tactic(auto, unfolding(crate::specs::Bodies::cart_at, laws::specs::Lists::every))]
pub fn cart_at(form: FileForm, f: &[u8], at: u16) -> Cart
    ensures { result ≡ cart_at form f.now at }
{
    let words = unpack(f, at, &Cart::WIDTHS);
    match form {
        FileForm::Old => Cart::of_words(&words[..OLD_WORDS]),
        FileForm::Current => Cart::of_words(&words),
    }
}
