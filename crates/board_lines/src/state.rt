// The five lines of a board: each of its fields by its name.
ghost use Rattle.output.specs.Put.{Puts};
ghost use Rattle.board_lines.specs.BoardLines.{cart_line, regs_line, reader_line, chip_line, chip_lines, state_lines};

use bandai_fcg::barcode_reader::BarcodeReader;
use bandai_fcg::board::Board;
use cart::Cart;
use eeprom::Eeprom;
use laws::flag;
use lines::{hex_line, put_pattern};
use output::Output;
use regs::Regs;

// Writes the fields of the cart.
#[tactic(auto, unfolding(crate::specs::BoardLines::cart_line))]
fn cart_line(out: &mut Output, c: Cart)
    ensures { Puts out.old out.new (cart_line c) }
{
    put_pattern(
        out,
        b"cart mapper_num # submapper_num # nes2 # mirroring # sram_access # prg_rom_size # chr_rom_size # chr_ram_size # prg_ram_size # battery_ext_size # ciram_size # ex_ram_size # eeprom_rule #\n",
        &c.words(),
    );
}

// Writes the registers.
#[tactic(auto, unfolding(crate::specs::BoardLines::regs_line))]
fn regs_line(out: &mut Output, r: Regs)
    ensures { Puts out.old out.new (regs_line r) }
{
    put_pattern(
        out,
        b"regs prg_page # prg_bank_select # prg_ram_enabled # chr_regs # # # # # # # # irq_counter # irq_enabled # irq_pending # irq_reload # mirroring # chr_banks # # # # # # # #\n",
        &r.words(),
    );
}

// Writes the reader and its modules.
fn reader_line(out: &mut Output, fitted: bool, r: BarcodeReader, modules: &[u8])
    ensures { Puts out.old out.new (reader_line fitted r modules.now) }
{
    let words = r.words();
    put_pattern(out, b"barcode_reader fitted #", &[flag(fitted)]);
    hex_line(
        out,
        b" master_clock # insert_cycle # new_barcode # new_barcode_digit_count # module_count # modules ",
        &words,
        modules,
    );
}

// Writes a chip and its memory.
#[tactic(auto, using(output::specs::PutLaws::put_append), unfolding(crate::specs::BoardLines::chip_line))]
fn chip_line(out: &mut Output, name: &[u8], fitted: bool, e: Eeprom, rom: &[u8])
    ensures { Puts out.old out.new (chip_line name.now fitted e rom.now) }
{
    let words = eeprom_codes::words(e);
    out.put_all(name);
    put_pattern(out, b" fitted #", &[flag(fitted)]);
    hex_line(
        out,
        b" model # mode # next_mode # chip_addr # addr # data # counter # output # scl # sda # rom ",
        &words,
        rom,
    );
}

// Writes the two chips.
fn chip_lines(out: &mut Output, board: Board)
    ensures { Puts out.old out.new (chip_lines board) }
{
    let standard = board.bandai.standard_eeprom;
    let extra = board.bandai.extra_eeprom;
    chip_line(
        out,
        b"standard_eeprom",
        board.bandai.has_standard_eeprom,
        standard,
        &board.standard_rom,
    );
    chip_line(
        out,
        b"extra_eeprom",
        board.bandai.has_extra_eeprom,
        extra,
        &board.extra_rom,
    );
}

// Writes every field of a board by its name.
#[tactic(auto, using(lines::proofs::Turns::put_four), unfolding(crate::specs::BoardLines::state_lines))]
pub fn state_lines(out: &mut Output, board: Board)
    ensures { Puts out.old out.new (state_lines board) }
{
    cart_line(out, board.bandai.cart);
    regs_line(out, board.bandai.regs);
    reader_line(
        out,
        board.bandai.has_barcode_reader,
        board.bandai.barcode_reader,
        &board.modules,
    );
    chip_lines(out, board);
}
