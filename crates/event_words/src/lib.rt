// An event record as three words, as a record of the C layout lies in memory.
#![tactic(auto)]

ghost use Rattle.std.specs.Prelude.{◌≡◌, get_or};
ghost use Rattle.event.specs.EventWords.{event_of};
ghost use Rattle.event_words.specs.Words.{record_of, words_of};

use event::Event;
use laws::word_at;

// Returns the record of three words. The bits of the last one from 24 on are ignored.
#[tactic(auto, unfolding(crate::specs::Words::record_of))]
pub fn event_of(a: u64, b: u64, c: u64) -> Event
    ensures { result ≡ record_of a b c }
{
    let fields = [
        b / 0x1000000000000,
        b / 0x100000000,
        b / 0x100000000000000,
        b,
        a,
        c,
        c / 0x100,
        c / 0x10000,
    ];
    Event::of_words(&fields)
}

// Returns the second word of the record with these fields: count, address, kind and value.
#[tactic(auto, unfolding(event::specs::EventWords::event_of))]
fn second_word(fields: &[u64]) -> u64
    ensures { result ≡ get_or (words_of (event_of fields.now)) 1 0 }
{
    word_at(fields, 3) % 0x100000000
        + 0x100000000 * (word_at(fields, 1) % 0x10000)
        + 0x1000000000000 * (word_at(fields, 0) % 0x100)
        + 0x100000000000000 * (word_at(fields, 2) % 0x100)
}

// Returns the third word of the record with these fields: chip, SCL and SDA.
#[tactic(auto, unfolding(event::specs::EventWords::event_of))]
fn third_word(fields: &[u64]) -> u64
    ensures { result ≡ get_or (words_of (event_of fields.now)) 2 0 }
{
    word_at(fields, 5) % 0x100
        + 0x100 * (word_at(fields, 6) % 0x100)
        + 0x10000 * (word_at(fields, 7) % 0x100)
}

// Returns the three words of the record with these fields, in the order of an event's words, each cut to its width. A missing field is 0.
#[tactic(auto, using(laws::proofs::WordsLaws::cut_word), unfolding(event::specs::EventWords::event_of))]
pub fn words_of(fields: &[u64]) -> [u64; 3]
    ensures { result ≡ words_of (event_of fields.now) }
{
    [word_at(fields, 4), second_word(fields), third_word(fields)]
}
