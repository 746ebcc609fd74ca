// Why a call refuses faulty input. Each refusal has a number; 0 is the number of no refusal.
#![tactic(auto)]

ghost use Rattle.std.specs.Prelude.{◌≡◌};
ghost use Rattle.refusals.specs.Refusals.{refusal_number, number_of};

#[derive(Clone, Copy, PartialEq, Eq, Debug)]
pub enum Refusal {
    // The mapper is not 16, 153, 157 or 159.
    MapperUnknown = 1,
    // A size of the description is above 16,777,216.
    SizeTooLarge = 2,
    // The NES 2.0 flag, the mirroring or the access is a code that is not listed.
    CodeUnlisted = 3,
    // A card or an insertion, and no reader is fitted.
    NoReader = 4,
    // A digit count above 20.
    DigitCount = 5,
    // The reader's clock would pass 2^62.
    ClockLimit = 6,
    // The level of a line is above 1.
    LineLevel = 7,
    // The chip is not fitted, or its number is above 1.
    ChipNotFitted = 8,
    // The length of the image does not match the layout.
    ImageLength = 9,
    // The lent buffer is too short.
    BufferTooShort = 10,
    // The bytes are not a state file that the writer makes.
    NotAStateFile = 11,
    // The board is not valid.
    BoardNotValid = 12,
    // The kind of an event is unknown.
    KindUnknown = 13,
    // The list of modules is none that a card of 8 or 13 digits yields.
    NoSuchCard = 16,
    // The chip rule of the description is above 1.
    RuleUnlisted = 17,
}

impl Refusal {
    // Returns the refusal's number.
    pub fn number(self) -> u8
        ensures { result ≡ refusal_number self }
    {
        self as u8
    }
}

// Returns the number of an outcome: its refusal's, or 0.
pub fn number_of<T>(outcome: &Result<T, Refusal>) -> u8
    ensures { result ≡ number_of outcome.now }
{
    match outcome {
        Ok(_) => 0,
        Err(refusal) => refusal.number(),
    }
}
