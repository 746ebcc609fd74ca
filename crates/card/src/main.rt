// The bars of a card as a picture, for a printer or a scanner.
//
//   card NUMBER DIGITS > card.pbm
//
// NUMBER is the card's number, DIGITS its digit count, both decimal. The picture is a PBM of the binary kind (P4): eight pixels a
// module, black where it is dark, 80 pixels high, with the light modules before and after the bars as quiet zones. Arguments that
// name no card get one line on standard error, and no picture; one of more than 4,096 bytes counts as none.
#![tactic(auto)]

ghost use Rattle.std.specs.Prelude.{◌≤◌, length};

mod picture;

use card_words::{Card, CardError, card_of};
use output::Output;
use picture::put_picture;
use std::env::{Env, FillError};
use std::io::Write;

// Says what is wrong with the arguments, and how to write them. A write that fails leaves the rest unwritten.
fn usage(rt: &HostRuntime, fault: &[u8]) {
    let mut room = [0u8; 4096];
    let mut out = Output {
        bytes: &mut room,
        at: 0,
    };
    out.put_all(b"card: ");
    out.put_all(fault);
    out.put_all(
        b"; use: card NUMBER DIGITS > card.pbm, NUMBER up to 18446744073709551615, DIGITS up to 20\n",
    );
    let _ = rt.stderr().write_all(out.written());
}

// Returns what is wrong with the arguments.
fn fault_of(error: CardError) -> &'static [u8] {
    match error {
        CardError::NumberNotDecimal => b"NUMBER is not a decimal number",
        CardError::DigitsNotDecimal => b"DIGITS is not a decimal number",
        CardError::NumberTooLarge => b"NUMBER is above 64 bits",
        CardError::DigitsTooMany => b"DIGITS is above 20",
    }
}

// Writes the picture. It has room: a card has at most 160 modules, a byte each in a row. A write that fails leaves the rest unwritten.
fn draw(rt: &HostRuntime, card: Card) {
    let mut room = [0u8; 65536];
    let mut out = Output {
        bytes: &mut room,
        at: 0,
    };
    put_picture(&mut out, card);
    let _ = rt.stdout().write_all(out.written());
}

// Tells whether there is an argument of this number.
fn is_given(rt: &HostRuntime, i: usize) -> bool {
    let mut room = [0u8; 4096];
    !matches!(rt.arg(i, &mut room), Err(FillError::NotPresent))
}

// Copies an argument to the front of a buffer and returns its length: 0 where it is missing or too long.
fn argument(rt: &HostRuntime, i: usize, room: &mut [u8]) -> usize
    ensures { result ≤ length room.new }
{
    rt.arg(i, room).unwrap_or(0)
}

fn main(rt: HostRuntime) {
    let given = is_given(&rt, 2);
    let more = is_given(&rt, 3);
    if more || !given {
        usage(&rt, b"it takes two arguments");
        return;
    }
    let mut number = [0u8; 4096];
    let n = argument(&rt, 1, &mut number);
    let mut digits = [0u8; 4096];
    let d = argument(&rt, 2, &mut digits);
    match card_of(&number[..n], &digits[..d]) {
        Ok(card) => draw(&rt, card),
        Err(error) => usage(&rt, fault_of(error)),
    }
}
