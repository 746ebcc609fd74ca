// What each command does to the player.
ghost use Rattle.std.specs.Prelude.{◌≡◌, ◌%◌};
ghost use Rattle.output.specs.Put.{Puts};
ghost use Rattle.player.specs.Player.{placed};
ghost use Rattle.play.specs.Play.{shown_by, asked_by, done_by, line_run, counted, too_long};

use board_lines::{bars_line, state_lines};
use commands::Command;
use image::{page_lines, view_line};
use lines::front;
use output::Output;
use player::{Player, counts, file_line, fit, report, resume, stop};
use player_decode::decode_bytes;
use player_image::{make_image, poke};
use player_split::{poke_split, view_split};
use reader_lines::module_line;
use script::{Line, LineFault, parse};
use views::Table;

// Returns the low byte of a number.
fn byte(v: u64) -> u8
    ensures { result ≡ v % 256 }
{
    (v & 0xff) as u8
}

// Returns the low 16 bits of a number.
fn word(v: u64) -> u16
    ensures { result ≡ v % 65536 }
{
    (v & 0xffff) as u16
}

// Writes what a command that only shows answers.
#[tactic(auto, using(output::specs::PutLaws::put_none))]
fn shown(out: &mut Output, player: Player, parsed: Line, image: &[u8])
    ensures { Puts out.old out.new (shown_by parsed.command player parsed image.now) }
{
    let board = player.board;
    match parsed.command {
        Command::File => file_line(out, board),
        Command::Pages => page_lines(out, board),
        Command::State => state_lines(out, board),
        Command::Bars => bars_line(out, board),
        Command::View => {
            let table = Table::of(parsed.chr);
            let image = front(image, player.image);
            view_line(out, board, image, table, word(parsed.value[0]));
        }
        Command::Module => module_line(out, board),
        _ => {}
    }
}

// Runs a command that only shows.
fn show(player: Player, parsed: Line, out: &mut [u8], image: &[u8]) -> Player
    ensures { (result, out.new) ≡ placed player out.old (shown_by parsed.command player parsed image.now) }
{
    let mut output = Output {
        bytes: out,
        at: player.place,
    };
    shown(&mut output, player, parsed, image);
    Player {
        place: output.at,
        ..player
    }
}

// Runs the commands on two buffers, `decode`, and those that only show.
fn asked(player: Player, line: &[u8], parsed: Line, out: &mut [u8], image: &mut [u8]) -> Player
    ensures { (result, out.new, image.new) ≡ asked_by parsed.command player line.now parsed out.old image.old }
{
    let table = Table::of(parsed.chr);
    let v = parsed.value;
    let addr = word(v[0]);
    match parsed.command {
        Command::View2 => view_split(player, table, addr, v[1] as usize, out, image),
        Command::Poke2 => poke_split(player, table, addr, byte(v[1]), v[2] as usize, out, image),
        Command::Decode => decode_bytes(player, line, out),
        _ => show(player, parsed, out, image),
    }
}

// Runs a command.
fn command(player: Player, line: &[u8], parsed: Line, out: &mut [u8], image: &mut [u8]) -> Player
    ensures { (result, out.new, image.new) ≡ done_by parsed.command player line.now parsed out.old image.old }
{
    let v = parsed.value;
    match parsed.command {
        Command::Fit => fit(player, v, out),
        Command::Counts => counts(player, out),
        Command::Stop => stop(player, out),
        Command::Resume => resume(player, line, out),
        Command::Image => make_image(player, out, image),
        Command::Poke => poke(
            player,
            Table::of(parsed.chr),
            word(v[0]),
            byte(v[1]),
            out,
            image,
        ),
        _ => asked(player, line, parsed, out, image),
    }
}

// Counts lines.
pub fn counted(player: Player, n: u64) -> Player
    ensures { result ≡ counted n player }
{
    Player {
        lines: player.lines.wrapping_add(n),
        ..player
    }
}

// Runs a line that is no event.
#[tactic(auto, unfolding(crate::specs::Play::line_run))]
pub fn run_line(player: Player, line: &[u8], out: &mut [u8], image: &mut [u8]) -> Player
    ensures { (result, out.new, image.new) ≡ line_run player line.now out.old image.old }
{
    let p = counted(player, 1);
    match parse(line) {
        Ok(parsed) => command(p, line, parsed, out, image),
        Err(fault) => report(p, fault.number(), out),
    }
}

// Reports a line that is too long, by the part of it that was read.
#[tactic(auto, unfolding(crate::specs::Play::too_long))]
pub fn too_long(player: Player, out: &mut [u8]) -> Player
    ensures { (result, out.new) ≡ too_long player out.old }
{
    report(counted(player, 1), LineFault::TooLong.number(), out)
}
