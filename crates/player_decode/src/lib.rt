// The command of a script that reads a list of modules as a card's digits. specs/PlayerDecode.antt defines it.
#![tactic(auto)]

ghost use Rattle.std.specs.Prelude.{◌≡◌};
ghost use Rattle.output.specs.Put.{decimal_of, Puts};
ghost use Rattle.lines.specs.Lines.{joined};
ghost use Rattle.player_decode.specs.PlayerDecode.{decode_line, decode_of};

use barcode::Modules;
use card_decode::decode;
use lines::{front, put_byte, put_pattern};
use output::Output;
use player::Player;
use script::bytes_in;

// Writes digits one after the other.
#[tactic(auto, using(lines::proofs::Turns::joined_more, lines::proofs::Turns::joined_end))]
fn put_all_digits(out: &mut Output, digits: &[u8])
    ensures { Puts out.old out.new (joined decimal_of digits.now) }
{
    for digit in digits {
        put_byte(out, *digit);
    }
}

// Writes the digits of the card that yields a list, or the refusal.
#[tactic(auto, using(lines::proofs::Turns::put_end_line, crate::proofs::Laws::refused_line), unfolding(crate::specs::PlayerDecode::decode_line))]
fn decode_line(out: &mut Output, list: &[u8])
    ensures { Puts out.old out.new (decode_line list.now) }
{
    match decode(list) {
        Ok(digits) => {
            out.put_all(b"decode 0 ");
            put_all_digits(out, digits.as_slice());
            out.put(b'\n');
        }
        Err(refusal) => put_pattern(out, b"decode #\n", &[u64::from(refusal.number())]),
    }
}

// Reads the bytes of a line as a list of modules, and writes the digits of the card that yields it, or the refusal.
pub fn decode_bytes(mut player: Player, line: &[u8], out: &mut [u8]) -> Player
    ensures { (result, out.new) ≡ decode_of player line.now out.old }
{
    // Room for one module more than a card has: a list that does not fit is too long either way.
    let mut list = [0; Modules::CAPACITY + 1];
    let length = bytes_in(line, &mut list);
    let mut output = Output {
        bytes: out,
        at: player.place,
    };
    decode_line(&mut output, front(&list, length));
    player.place = output.at;
    player
}
