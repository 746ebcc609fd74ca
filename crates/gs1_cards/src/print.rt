// The line that is written for a line that was read.
ghost use Rattle.std.specs.Prelude.{◌≡◌, map};
ghost use Rattle.barcode.specs.Barcode.{barcode_of};
ghost use Rattle.output.specs.Put.{Puts};
ghost use Rattle.gs1_cards.specs.Cards.{card_in, card_text, fault_text, line_of, bar};

use crate::parse::card_in;
use barcode::barcode_of;
use card_words::CardError;
use output::Output;

// A module as a character.
fn bar(m: u8) -> u8
    ensures { result ≡ bar m }
{
    if m == 0 { b'#' } else { b'.' }
}

#[tactic(auto, using(crate::proofs::Words::bars_more, output::specs::PutLaws::each_end))]
fn put_bars(out: &mut Output, modules: &[u8])
    ensures { Puts out.old out.new (map bar modules.now) }
{
    for m in modules {
        out.put(bar(*m));
    }
}

// The line of a card. A digit count above 20 has no modules and the check digit 0.
#[tactic(auto, using(crate::proofs::Words::text_parts, crate::proofs::Words::refused_text), unfolding(crate::specs::Cards::card_text))]
fn put_card(out: &mut Output, number: u64, count: u32)
    ensures { Puts out.old out.new (card_text (barcode_of number count)) }
{
    let Ok(card) = barcode_of(number, count) else {
        out.put_all(b"0 0 ");
        return;
    };
    out.put_decimal(u64::from(card.modules.count));
    out.put(b' ');
    out.put_decimal(u64::from(card.check));
    out.put(b' ');
    put_bars(out, card.modules.as_slice());
}

// Why a line names no card.
fn fault_text(error: CardError) -> &'static [u8]
    ensures { result.now ≡ fault_text error }
{
    match error {
        CardError::NumberTooLarge => b"no card: the number is above 18446744073709551615",
        CardError::DigitsTooMany => b"no card: refused with 5, the digit count is above 20",
        _ => b"no card: not a number and a digit count",
    }
}

// The line that says why a line is no card.
pub fn no_card(out: &mut Output, error: CardError)
    ensures { Puts out.old out.new (fault_text error) }
{
    out.put_all(fault_text(error));
}

// Writes the line for a line that was read.
pub fn answer(line: &[u8], out: &mut Output)
    ensures { Puts out.old out.new (line_of (card_in line.now)) }
{
    match card_in(line) {
        Ok(card) => put_card(out, card.number, card.digits),
        Err(error) => no_card(out, error),
    }
}
