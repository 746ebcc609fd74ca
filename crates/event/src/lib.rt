// Event records, their answers, and the refusals of each kind.
#![tactic(auto)]

pub mod kind;
pub mod refusal;

ghost use Rattle.std.specs.Prelude.{◌≡◌, []};
ghost use Rattle.event.specs.EventWords.{event_words, event_from, event_of};
ghost use Rattle.event.specs.Event.{write_event, read_event, clocks_event, card_event, insert_event, lines_event};

use crate::kind::EventKind;
use bandai_fcg::board::Board;
use laws::word_at;

// Fields that the kind does not name are ignored. The kind and the chip stay numbers here, since the C interface has them, and a number that is
// no kind's is refused and not cut away.
#[repr(C)]
#[derive(Clone, Copy, PartialEq, Eq, Debug, Default)]
pub struct Event {
    pub number: u64,
    pub count: u32,
    pub address: u16,
    pub kind: u8,
    pub value: u8,
    pub chip: u8,
    pub scl: u8,
    pub sda: u8,
}

// The three bytes of an answer, as the C interface has them: the refusal's number or 0; bit 0 "device answered" and bit 1 "interrupt pending
// after it"; the value read, else 0.
#[repr(C)]
#[derive(Clone, Copy)]
pub struct Answer {
    pub refusal: u8,
    pub flags: u8,
    pub value: u8,
}

#[repr(C)]
#[derive(Clone, Copy)]
pub struct Stepped {
    pub board: Board,
    pub answer: Answer,
}

impl Event {
    // The chips of a lines record.
    pub const STANDARD: u8 = 0;

    pub const EXTRA: u8 = 1;

    // The fields as words, with their widths in bytes: `WIDTHS[i]` is the width of word i.
    pub const WORDS: usize = 8;

    pub const WIDTHS: [u8; Self::WORDS] = [1, 2, 1, 4, 8, 1, 1, 1];

    // Returns the fields as words.
    pub fn words(self) -> [u64; Self::WORDS]
        ensures { result ≡ event_words self }
    {
        [
            u64::from(self.kind),
            u64::from(self.address),
            u64::from(self.value),
            u64::from(self.count),
            self.number,
            u64::from(self.chip),
            u64::from(self.scl),
            u64::from(self.sda),
        ]
    }

    // Returns the record with these words, each cut to its width. A missing word is 0.
    #[tactic(auto, using(laws::proofs::WordsLaws::cut_word), unfolding(crate::specs::EventWords::event_of))]
    pub fn of_words(words: &[u64]) -> Event
        ensures { result ≡ event_of words.now }
    {
        Event {
            kind: (word_at(words, 0) % 256) as u8,
            address: (word_at(words, 1) % 65536) as u16,
            value: (word_at(words, 2) % 256) as u8,
            count: (word_at(words, 3) % 4294967296) as u32,
            number: word_at(words, 4),
            chip: (word_at(words, 5) % 256) as u8,
            scl: (word_at(words, 6) % 256) as u8,
            sda: (word_at(words, 7) % 256) as u8,
        }
    }

    // Returns the record with 0 in every field.
    pub fn empty() -> Event
        ensures { result ≡ event_from [] }
    {
        Event::default()
    }

    // The records of each kind, 0 in the fields that it does not name.

    // Returns the record of a register write.
    pub fn write(address: u16, value: u8) -> Event
        ensures { result ≡ write_event address value }
    {
        Event {
            kind: EventKind::Write as u8,
            address,
            value,
            ..Event::empty()
        }
    }

    // Returns the record of a device read.
    pub fn read(address: u16) -> Event
        ensures { result ≡ read_event address }
    {
        Event {
            kind: EventKind::Read as u8,
            address,
            ..Event::empty()
        }
    }

    // Returns the record of `count` clocks.
    pub fn clocks(count: u32) -> Event
        ensures { result ≡ clocks_event count }
    {
        Event {
            kind: EventKind::Clocks as u8,
            count,
            ..Event::empty()
        }
    }

    // Returns the record of a card.
    pub fn card(number: u64, digit_count: u32) -> Event
        ensures { result ≡ card_event number digit_count }
    {
        Event {
            kind: EventKind::Card as u8,
            number,
            count: digit_count,
            ..Event::empty()
        }
    }

    // Returns the record of an insertion.
    pub fn insert() -> Event
        ensures { result ≡ insert_event }
    {
        Event {
            kind: EventKind::Insert as u8,
            ..Event::empty()
        }
    }

    // Returns the record of a line change.
    pub fn lines(chip: u8, scl: u8, sda: u8) -> Event
        ensures { result ≡ lines_event chip scl sda }
    {
        Event {
            kind: EventKind::Lines as u8,
            chip,
            scl,
            sda,
            ..Event::empty()
        }
    }
}
