// What may be wrong with a line. Each fault has a number; 0 is the number of no fault.
ghost use Rattle.std.specs.Prelude.{◌≡◌};
ghost use Rattle.script.specs.Faults.{fault_number, IsFaultOf};

use number::NumberError;

#[derive(Clone, Copy, PartialEq, Eq, Debug)]
pub enum LineFault {
    NotANumber = 1,
    Above64Bits = 2,
    // A number is missing.
    Missing = 3,
    // A number too many.
    TooMany = 4,
    // A value that its field cannot hold.
    CannotHold = 5,
    NotHexadecimal = 6,
    // Neither prg nor chr.
    NoMemory = 7,
    UnknownWord = 8,
    // Longer than `Line::LONGEST`.
    TooLong = 9,
}

impl LineFault {
    // Returns the fault's number.
    pub fn number(self) -> u8
        ensures { result ≡ fault_number self }
    {
        self as u8
    }
}

impl From<NumberError> for LineFault {
    ghost from_gives = { IsFaultOf };

    fn from(error: NumberError) -> LineFault {
        match error {
            NumberError::NotANumber => LineFault::NotANumber,
            NumberError::TooLarge => LineFault::Above64Bits,
        }
    }
}
