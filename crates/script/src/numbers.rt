// The numbers of a line, in order.
ghost use Rattle.std.specs.Prelude.{◌≡◌, IfOk};
ghost use Rattle.text.specs.Words.{words};
ghost use Rattle.script.specs.Faults.{number_fault};
ghost use Rattle.script.specs.Script.{as_numbers, no_numbers, with_number, numbers_of};

use crate::words::Words;
use commands::Command;
use number::{NumberError, number_of};

// The numbers that were read, and how many they are (`Command::NUMBERS + 1`: more than have room). An array with a count,
// since nothing here is on a heap.
#[derive(Clone, Copy)]
pub struct Numbers {
    pub value: [u64; Command::NUMBERS],
    pub count: usize,
}

impl Numbers {
    // Returns no numbers.
    #[tactic(auto, unfolding(crate::specs::Script::no_numbers, laws::specs::Lists::blank))]
    fn none() -> Numbers
        ensures { as_numbers result ≡ no_numbers }
    {
        Numbers {
            value: [0; Command::NUMBERS],
            count: 0,
        }
    }

    // Returns the numbers with one more.
    #[tactic(auto, unfolding(crate::specs::Script::with_number))]
    fn kept(mut self, v: u64) -> Numbers
        ensures { as_numbers result ≡ with_number (as_numbers self) v }
    {
        if self.count < Command::NUMBERS {
            self.value[self.count] = v;
            self.count += 1;
        } else {
            self.count = Command::NUMBERS + 1;
        }
        self
    }
}

// Returns the numbers of words, up to the first word that is none.
pub fn read_words(list: Words) -> Result<Numbers, NumberError>
    ensures fault { number_fault result ≡ (numbers_of (words list.entry.code.now)).fault }
    ensures ok { IfOk result (λ n. as_numbers n ≡ numbers_of (words list.entry.code.now)) }
{
    let mut all = Numbers::none();
    for word in list {
        all = all.kept(number_of(word)?);
    }
    Ok(all)
}
