// A board as the bytes of its file.
ghost use Rattle.std.specs.Prelude.{◌≡◌, ◌≤◌};
ghost use Rattle.state_bodies.specs.FileBuffer.{appended};
ghost use Rattle.state_bodies.specs.declared.cart_body.FileForm.{FileForm};
ghost use Rattle.state_bodies.specs.Bodies.{reader_length, eeprom_length};
ghost use Rattle.state_codec.specs.Encode.{entry, first_start};
ghost use Rattle.state_codec.specs.Decode.{fitted_length};
ghost use Rattle.state_codec.specs.Steps.{kind_number, part_count, rooms_of, Small, contents_of, bodies_of, encoded_length, encoded_of, Encoded};

use bandai_fcg::barcode_reader::BarcodeReader;
use bandai_fcg::board::Board;
use eeprom::Eeprom;
use state_bodies::FileForm;
use state_bodies::file_buffer::FileBuffer;

// The kinds of the parts, numbered as in an entry.
#[derive(Clone, Copy)]
enum Kind {
    Cart = 1,
    Regs = 2,
    Reader = 3,
    Standard = 4,
    Extra = 5,
}

// The widths of an entry: its kind, a 0, the length of the body and its start.
const ENTRY_WIDTHS: [u8; 4] = [1, 1, 2, 2];

fn part_count(board: Board) -> u8
    ensures { (result ≡ part_count board) × (result ≤ 5) }
{
    2 + u8::from(board.bandai.has_barcode_reader)
        + u8::from(board.bandai.has_standard_eeprom)
        + u8::from(board.bandai.has_extra_eeprom)
}

// Where the first body starts, after so many entries.
pub fn first_start(parts: u8) -> u16
    ensures { (result ≡ first_start parts) × (result ≤ 1531) }
{
    1 + 6 * (parts as u16)
}

// A part that is not fitted takes no room. A flag says whether it is fitted, as in a board: a rule of the project.
pub fn fitted_length(has: bool, length: u16) -> u16
    ensures { (result ≡ fitted_length has length) × (result ≤ length) }
{
    if has { length } else { 0 }
}

// The room that a part takes.
pub fn reader_room(has: bool, reader: BarcodeReader) -> u16
    ensures { (result ≡ fitted_length has (reader_length reader)) × (result ≤ 281) }
{
    fitted_length(has, state_bodies::reader_length(reader))
}

// Returns the length of a chip's body, 0 where none is fitted.
pub fn eeprom_room(has: bool, chip: Eeprom) -> u16
    ensures { (result ≡ fitted_length has (eeprom_length chip.model)) × (result ≤ 266) }
{
    fitted_length(has, state_bodies::eeprom_length(chip.model))
}

// The room of each part that may be missing.
#[derive(Clone, Copy)]
struct Rooms {
    reader: u16,
    standard: u16,
    extra: u16,
}

fn rooms_of(board: Board) -> Rooms
    ensures { (result ≡ rooms_of board) × Small result }
{
    let bandai = board.bandai;
    Rooms {
        reader: reader_room(bandai.has_barcode_reader, bandai.barcode_reader),
        standard: eeprom_room(bandai.has_standard_eeprom, bandai.standard_eeprom),
        extra: eeprom_room(bandai.has_extra_eeprom, bandai.extra_eeprom),
    }
}

// How many bytes the file of a valid board has, as it is written.
pub fn encoded_length(board: Board) -> u16
    ensures { result ≡ encoded_length FileForm.Current board }
{
    let rooms = rooms_of(board);
    first_start(part_count(board))
        + state_bodies::CART_LENGTH
        + state_bodies::REGS_LENGTH
        + rooms.reader
        + rooms.standard
        + rooms.extra
}

// The entry of a part: where its body starts, and how long it is.
#[tactic(auto, unfolding(crate::specs::Encode::entry))]
fn push_entry(file: &mut FileBuffer, kind: Kind, length: u16, start: u16)
    ensures { file.new ≡ appended file.old (entry (kind_number kind) length start) }
{
    let words = [kind as u64, 0, length as u64, start as u64];
    file.push_words(&ENTRY_WIDTHS, &words);
}

// The number of parts, and the entry of each that is there.
#[tactic(auto, using(state_bodies::specs::FileBufferLaws::appended_two, state_bodies::specs::FileBufferLaws::appended_none, crate::specs::StepsLaws::count_byte), unfolding(crate::specs::Steps::contents_of))]
fn push_contents(file: &mut FileBuffer, form: FileForm, board: Board)
    ensures { file.new ≡ appended file.old (contents_of form board) }
{
    let parts = part_count(board);
    let rooms = rooms_of(board);
    let cart_length = state_bodies::cart_length(form);
    let cart_start = first_start(parts);
    let regs_start = cart_start + cart_length;
    let reader_start = regs_start + state_bodies::REGS_LENGTH;
    let standard_start = reader_start + rooms.reader;
    let extra_start = standard_start + rooms.standard;
    file.push(parts);
    push_entry(file, Kind::Cart, cart_length, cart_start);
    push_entry(file, Kind::Regs, state_bodies::REGS_LENGTH, regs_start);
    if board.bandai.has_barcode_reader {
        push_entry(file, Kind::Reader, rooms.reader, reader_start);
    }
    if board.bandai.has_standard_eeprom {
        push_entry(file, Kind::Standard, rooms.standard, standard_start);
    }
    if board.bandai.has_extra_eeprom {
        push_entry(file, Kind::Extra, rooms.extra, extra_start);
    }
}

// The body of each part that is there.
#[tactic(auto, using(state_bodies::specs::FileBufferLaws::appended_two, state_bodies::specs::FileBufferLaws::appended_none), unfolding(crate::specs::Steps::bodies_of))]
fn push_bodies(file: &mut FileBuffer, form: FileForm, board: Board)
    ensures { file.new ≡ appended file.old (bodies_of form board) }
{
    let bandai = board.bandai;
    file.push_cart(form, bandai.cart);
    file.push_regs(bandai.regs);
    if bandai.has_barcode_reader {
        file.push_reader(bandai.barcode_reader, board.modules);
    }
    if bandai.has_standard_eeprom {
        file.push_eeprom(bandai.standard_eeprom, board.standard_rom);
    }
    if bandai.has_extra_eeprom {
        file.push_eeprom(bandai.extra_eeprom, board.extra_rom);
    }
}

// The file in a form, at the front of a buffer.
pub fn encode(form: FileForm, board: Board) -> FileBuffer
    ensures { (result ≡ encoded_of form board) × Encoded form board result }
{
    let mut file = FileBuffer::new();
    push_contents(&mut file, form, board);
    push_bodies(&mut file, form, board);
    file
}
