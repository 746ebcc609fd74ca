// The line of a faulty line.
ghost use Rattle.std.specs.Prelude.{◌≡◌};
ghost use Rattle.output.specs.Put.{Puts};
ghost use Rattle.script.specs.Faults.{fault_number};
ghost use Rattle.lines.specs.Lines.{message_of, fault_line};

use crate::pattern::put_pattern;
use output::Output;
use script::LineFault;

// Returns the message of a fault.
#[tactic(auto, unfolding(crate::specs::Lines::message_of, crate::specs::Lines::words_message))]
fn message(fault: LineFault) -> &'static [u8]
    ensures { result.now ≡ message_of (fault_number fault) }
{
    match fault {
        LineFault::NotANumber => b"not a number",
        LineFault::Above64Bits => b"a number above 64 bits",
        LineFault::Missing => b"a number is missing",
        LineFault::TooMany => b"a number too many",
        LineFault::CannotHold => b"a value that its field cannot hold",
        LineFault::NotHexadecimal => b"not hexadecimal",
        LineFault::NoMemory => b"neither prg nor chr",
        LineFault::UnknownWord => b"unknown word",
        LineFault::TooLong => b"longer than 4096 bytes",
    }
}

// Returns a fault whose message is that of a number: every number from 9 on, and 0, has the last one.
#[tactic(auto, unfolding(crate::specs::Lines::message_of, crate::specs::Lines::words_message))]
fn fault_of(number: u8) -> LineFault
    ensures { message_of (fault_number result) ≡ message_of number }
{
    match number {
        1 => LineFault::NotANumber,
        2 => LineFault::Above64Bits,
        3 => LineFault::Missing,
        4 => LineFault::TooMany,
        5 => LineFault::CannotHold,
        6 => LineFault::NotHexadecimal,
        7 => LineFault::NoMemory,
        8 => LineFault::UnknownWord,
        _ => LineFault::TooLong,
    }
}

// Writes the number of a line and what is wrong with it, by the number of the fault.
#[tactic(auto, using(crate::proofs::Turns::put_end_line), unfolding(crate::specs::Lines::fault_line))]
pub fn fault_line(out: &mut Output, line: u64, fault: u8)
    ensures { Puts out.old out.new (fault_line line fault) }
{
    put_pattern(out, b"line #: ", &[line]);
    out.put_all(message(fault_of(fault)));
    out.put(b'\n');
}
