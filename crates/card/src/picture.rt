// The picture's bytes: its header, and its rows, which are all the same.
ghost use Rattle.std.specs.Prelude.{◌≡◌};
ghost use Rattle.output.specs.Put.{Puts};
ghost use Rattle.card.specs.Picture.{ink, row_of, header_of, rows, picture_of};

use barcode::modules_of;
use card_words::Card;
use output::Output;

// The picture's height in pixels, and a module's width.
const HEIGHT: u64 = 80;

const MODULE_WIDTH: u64 = 8;

// The eight pixels of a module, a byte: a bit that is set is black.
#[tactic(auto, unfolding(crate::specs::Picture::bits))]
fn ink(m: u8) -> u8
    ensures { result ≡ ink m }
{
    if m == 0 { 255 } else { 0 }
}

// A row of pixels.
#[tactic(auto, using(crate::proofs::Rows::row_more, output::specs::PutLaws::each_end, crate::proofs::Rows::row_bytes))]
fn put_row(out: &mut Output, modules: &[u8])
    ensures { Puts out.old out.new (row_of modules.now) }
{
    for m in modules {
        out.put(ink(*m));
    }
}

// So many rows.
#[tactic(auto, using(crate::proofs::Rows::rows_left, crate::proofs::Rows::rows_end))]
fn put_rows(out: &mut Output, modules: &[u8], count: u64)
    ensures { Puts out.old out.new (rows count (row_of modules.now)) }
{
    for _i in 0..count {
        put_row(out, modules);
    }
}

// The header of a picture that is so many modules wide.
#[tactic(auto, using(crate::proofs::Rows::header_parts))]
fn put_header(out: &mut Output, count: u8)
    ensures { Puts out.old out.new (header_of count) }
{
    out.put_all(b"P4\n");
    out.put_decimal(u64::from(count) * MODULE_WIDTH);
    out.put(b' ');
    out.put_decimal(HEIGHT);
    out.put(b'\n');
}

// Writes the picture of a card.
#[tactic(auto, using(crate::proofs::Rows::modules_back, crate::proofs::Rows::modules_counted, output::specs::PutLaws::put_append), unfolding(crate::specs::Picture::picture_of))]
pub fn put_picture(out: &mut Output, card: Card)
    ensures { Puts out.old out.new (picture_of card.number card.digits) }
{
    let modules = modules_of(card.number, card.digits);
    put_header(out, modules.count);
    put_rows(out, modules.as_slice(), HEIGHT);
}
