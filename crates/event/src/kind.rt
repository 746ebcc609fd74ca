// The kinds of a record, and the kind of each number.
ghost use Rattle.event.specs.Kind.{Decodes};

use refusals::Refusal;

#[derive(Clone, Copy, PartialEq, Eq, Debug)]
pub enum EventKind {
    // A register write.
    Write = 0,
    // A device read.
    Read = 1,
    // Clocks.
    Clocks = 2,
    // A card.
    Card = 3,
    // An insertion.
    Insert = 4,
    // A line change.
    Lines = 5,
}

impl TryFrom<u8> for EventKind {
    type Error = Refusal;

    ghost try_from_gives = { Decodes };

    fn try_from(number: u8) -> Result<Self, Refusal> {
        match number {
            0 => Ok(EventKind::Write),
            1 => Ok(EventKind::Read),
            2 => Ok(EventKind::Clocks),
            3 => Ok(EventKind::Card),
            4 => Ok(EventKind::Insert),
            5 => Ok(EventKind::Lines),
            _ => Err(Refusal::KindUnknown),
        }
    }
}
