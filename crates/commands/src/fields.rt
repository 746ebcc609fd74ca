// What follows a command: a form, and numbers of given widths in bytes.
ghost use Rattle.std.specs.Prelude.{◌≡◌, ◌≤◌, ◌^◌, ltb, length};
ghost use Rattle.commands.specs.Commands.{numbers_room, form_number, form_of, widths_of, wanted_by, held_by};

use crate::{Command, Form};
use cart::Cart;
use event::Event;

// Returns what follows a command.
pub fn form_of(command: Command) -> Form
    ensures { form_number result ≡ form_of command }
{
    match command {
        Command::Resume | Command::Decode => Form::Bytes,
        Command::View | Command::Poke | Command::View2 | Command::Poke2 => Form::MemoryAndNumbers,
        Command::Nothing | Command::Unknown => Form::NoCommand,
        _ => Form::Numbers,
    }
}

// Returns the width in bytes of each number that a command takes.
fn widths_of(command: Command) -> &'static [u8]
    ensures is { result.now ≡ widths_of command }
    ensures room { length result.now ≤ numbers_room }
{
    match command {
        Command::Fit => &Cart::WIDTHS,
        Command::Event => &Event::WIDTHS,
        Command::Lines => &[1, 1, 1],
        Command::Write | Command::Poke => &[2, 1],
        Command::Card => &[8, 4],
        Command::Read | Command::View => &[2],
        Command::Clocks => &[4],
        Command::View2 => &[2, 4],
        Command::Poke2 => &[2, 1, 4],
        _ => &[],
    }
}

// Returns how many numbers a command takes.
pub fn wanted(command: Command) -> usize
    ensures { result ≡ wanted_by command }
{
    widths_of(command).len()
}

// Returns whether a number has at most so many bytes.
fn fits(n: u64, width: u8) -> bool
    ensures { result ≡ ltb n (256 ^ width) }
{
    256_u64
        .checked_pow(u32::from(width))
        .is_none_or(|limit| n < limit)
}

// Returns whether each number fits its field.
pub fn holds(command: Command, v: [u64; Command::NUMBERS]) -> bool
    ensures { result ≡ held_by command v }
{
    widths_of(command)
        .iter()
        .zip(&v)
        .all(|(width, n)| fits(*n, *width))
}
