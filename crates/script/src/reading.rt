// What a line says.
ghost use Rattle.std.specs.Prelude.{◌≡◌};
ghost use Rattle.text.specs.Words.{words, first, rest};
ghost use Rattle.number.specs.Number.{bytes_of};
ghost use Rattle.output.specs.Put.{put_all};
ghost use Rattle.script.specs.Faults.{fault_in};
ghost use Rattle.script.specs.Script.{as_line, as_numbers, fault_of, bare_line, numbers_line, memory_line, is_hexadecimal, hexadecimal_line, command_line, words_line, line_of, bytes_in};

use crate::numbers::{Numbers, read_words};
use crate::words::Words;
use crate::{Line, LineFault};
use commands::{Command, Form, command_of, form_of, holds, wanted};
use number::{are_digits, read_hex};
use text::is_word;

// Returns a command without numbers.
#[tactic(auto, unfolding(laws::specs::Lists::blank))]
fn bare(command: Command) -> Line
    ensures { result ≡ bare_line command }
{
    Line {
        value: [0; Command::NUMBERS],
        command,
        chr: false,
    }
}

// Tests the numbers of a command.
#[tactic(auto, unfolding(crate::specs::Script::fault_of))]
fn check(command: Command, n: Numbers) -> Result<(), LineFault>
    ensures { fault_in result ≡ fault_of command (as_numbers n) }
{
    let wanted = wanted(command);
    if n.count < wanted {
        Err(LineFault::Missing)
    } else if wanted < n.count {
        Err(LineFault::TooMany)
    } else if holds(command, n.value) {
        Ok(())
    } else {
        Err(LineFault::CannotHold)
    }
}

// Reads a command and its numbers.
#[tactic(auto, unfolding(crate::specs::Script::numbers_line))]
fn numbers_line(command: Command, chr: bool, list: Words) -> Result<Line, LineFault>
    ensures { as_line result ≡ numbers_line command chr (words list.entry.code.now) }
{
    let n = read_words(list)?;
    check(command, n)?;
    let value = n.value;
    Ok(Line {
        value,
        command,
        chr,
    })
}

// Reads a view or a poke: its memory, then its numbers.
#[tactic(auto, unfolding(crate::specs::Script::memory_line, text::specs::Words::first, text::specs::Words::rest, laws::specs::Lists::same))]
fn memory_line(command: Command, mut list: Words) -> Result<Line, LineFault>
    ensures { as_line result ≡ memory_line command (words list.entry.code.now) }
{
    match list.next() {
        Some(word) if is_word(word, b"prg") => numbers_line(command, false, list),
        Some(word) if is_word(word, b"chr") => numbers_line(command, true, list),
        _ => Err(LineFault::NoMemory),
    }
}

// Returns whether there is at most one word, of hexadecimal digits, two a byte.
#[tactic(auto, using(crate::proofs::Turns::word_long), unfolding(text::specs::Words::first, text::specs::Words::rest, text::specs::Words::none, laws::specs::Lists::every))]
fn is_hexadecimal(mut list: Words) -> bool
    ensures { result ≡ is_hexadecimal (words list.entry.code.now) }
{
    match (list.next(), list.next()) {
        (None, _) => true,
        (Some(word), None) => are_digits(word, true) && word.len() % 2 == 0,
        (Some(_), Some(_)) => false,
    }
}

// Reads a command and bytes.
#[tactic(auto, unfolding(crate::specs::Script::hexadecimal_line))]
fn hexadecimal_line(command: Command, list: Words) -> Result<Line, LineFault>
    ensures { as_line result ≡ hexadecimal_line command (words list.entry.code.now) }
{
    if is_hexadecimal(list) {
        Ok(bare(command))
    } else {
        Err(LineFault::NotHexadecimal)
    }
}

// Reads what follows a command.
#[tactic(auto, unfolding(crate::specs::Script::command_line))]
fn command_line(command: Command, list: Words) -> Result<Line, LineFault>
    ensures { as_line result ≡ command_line command (words list.entry.code.now) }
{
    match form_of(command) {
        Form::Numbers => numbers_line(command, false, list),
        Form::MemoryAndNumbers => memory_line(command, list),
        Form::Bytes => hexadecimal_line(command, list),
        Form::NoCommand => Err(LineFault::UnknownWord),
    }
}

// Reads a line without its comment.
#[tactic(auto, unfolding(crate::specs::Script::words_line, crate::specs::Script::fault_line))]
fn code_line(mut list: Words) -> Result<Line, LineFault>
    ensures { as_line result ≡ words_line (words list.entry.code.now) }
{
    match list.next() {
        Some(word) => command_line(command_of(word), list),
        None => Ok(bare(Command::Nothing)),
    }
}

// Returns what a line says.
#[tactic(auto, unfolding(crate::specs::Script::line_of))]
pub fn parse(line: &[u8]) -> Result<Line, LineFault>
    ensures { as_line result ≡ line_of line.now }
{
    if line.len() > Line::LONGEST {
        return Err(LineFault::TooLong);
    }
    code_line(Words::of_line(line))
}

// Returns the second word, empty where there is none.
#[tactic(auto, unfolding(text::specs::Words::first, text::specs::Words::rest))]
fn second_word<'a>(mut list: Words<'a>) -> &'a [u8]
    ensures { result.now ≡ first (rest (words list.entry.code.now)) }
{
    match list.next() {
        Some(_) => list.next().unwrap_or(&[]),
        None => &[],
    }
}

// Writes the bytes that follow a line's command to the front of a buffer, as many as have room. Answers how many these are.
#[tactic(auto, unfolding(crate::specs::Script::bytes_in))]
pub fn bytes_in(line: &[u8], bytes: &mut [u8]) -> usize
    ensures { (bytes.new, result) ≡ put_all (bytes.old, 0) (bytes_in line.now) }
{
    read_hex(second_word(Words::of_line(line)), bytes)
}
