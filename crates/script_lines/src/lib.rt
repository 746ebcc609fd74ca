// The lines of a script: the events of neighbouring lines are collected and run together, every other line by itself.
// specs/ScriptLines.antt defines it.
#![tactic(auto)]

ghost use Rattle.std.specs.Prelude.{◌≡◌, ◌*◌, ◌<◌, eqb, take, drop};
ghost use Rattle.script.specs.Script.{as_line};
ghost use Rattle.script_lines.specs.ScriptLines.{whole_lines, kind_number, IsKindOf, kind_kept, kind_count, taken_of, line_played, taken_run, part_played};

use commands::{Form, form_of};
use play::{counted, run_line};
use player::Player;
use records::{put_record, run_pending};
use script::{Line, LineFault, parse};
use script_events::{is_event, line_words};
use text::line_end;

// How many records wait at most.
const ROOM: usize = 64;

// The events that were collected, the lines that they stood on (blank ones too), the place past them, and whether another line stands there.
#[derive(Clone, Copy)]
struct Taken {
    at: usize,
    count: usize,
    lines: u64,
    other: bool,
}

// Where the player is, and how far the text was played.
#[derive(Clone, Copy)]
pub struct Played {
    pub player: Player,
    pub at: usize,
}

// What is to be done with a line.
#[derive(Clone, Copy)]
enum LineKind {
    Blank,
    Event(Line),
    // any other, and a line with a fault
    Other,
}

impl LineKind {
    // Returns whether the line is neither an event nor blank.
    fn is_other(self) -> bool
        ensures { result ≡ eqb (kind_number self) 2 }
    {
        matches!(self, LineKind::Other)
    }
}

// Returns the kind of a line.
#[tactic(auto, unfolding(crate::specs::ScriptLines::kind_of, script::specs::Script::fault_line))]
fn kind_of(line: Result<Line, LineFault>) -> LineKind
    ensures { IsKindOf result (as_line line) }
{
    match line {
        Ok(line) if is_event(line.command) => LineKind::Event(line),
        Ok(line) if form_of(line.command) == Form::NoCommand => LineKind::Blank,
        _ => LineKind::Other,
    }
}

// Adds the event of a line. Answers how many wait now.
fn add_event(pending: &mut [u64], count: usize, kind: LineKind) -> usize
    requires { count < 64 }
    ensures { (result ≡ kind_count kind count) × (pending.new ≡ kind_kept kind pending.old count) }
{
    match kind {
        LineKind::Event(line) => {
            put_record(pending, count, line_words(line));
            count + 1
        }
        _ => count,
    }
}

// Collects events from a place on, up to another line, to the last whole line, or to as many as there is room for.
fn collect(text: &[u8], from: usize, pending: &mut [u64]) -> Taken
    ensures { (result, pending.new) ≡ taken_of text.now from pending.old }
{
    let mut at = from;
    let mut count: usize = 0;
    let mut lines: u64 = 0;
    // a `while`: the place moves on by a line at a time, and no iterator answers where it stands
    while at < text.len() {
        let end = line_end(text, at);
        if end >= text.len() {
            return Taken {
                at,
                count,
                lines,
                other: false,
            };
        }
        let kind = kind_of(parse(&text[at..end]));
        let other = kind.is_other();
        if other | (count >= ROOM) {
            return Taken {
                at,
                count,
                lines,
                other,
            };
        }
        count = add_event(pending, count, kind);
        lines += 1;
        at = end + 1;
    }
    Taken {
        at,
        count,
        lines,
        other: false,
    }
}

// The words of the first `count` records.
fn words_of(pending: &[u64], count: usize) -> &[u64]
    ensures { result.now ≡ take (3 * count) pending.now }
{
    pending.get(..count.saturating_mul(3)).unwrap_or(pending)
}

// The line that stands at a place, if it is whole.
fn play_line(player: Player, text: &[u8], at: usize, out: &mut [u8], image: &mut [u8]) -> Played
    ensures { (result, out.new, image.new) ≡ line_played player at (whole_lines (drop at text.now)) out.old image.old }
{
    let end = line_end(text, at);
    if end < text.len() {
        Played {
            player: run_line(player, &text[at..end], out, image),
            at: end + 1,
        }
    } else {
        Played { player, at }
    }
}

// Runs the events that were collected, and counts their lines.
fn run_taken(player: Player, taken: Taken, pending: &[u64], out: &mut [u8]) -> Player
    ensures { (result, out.new) ≡ taken_run player (taken, pending.now) out.old }
{
    let p = run_pending(player, words_of(pending, taken.count), out);
    counted(p, taken.lines)
}

// Plays the events from a place on, as many as are run together, and another line after them.
#[tactic(auto, unfolding(crate::specs::ScriptLines::part_played))]
pub fn play_part(
    player: Player,
    text: &[u8],
    from: usize,
    pending: &mut [u64],
    out: &mut [u8],
    image: &mut [u8],
) -> Played
    ensures { ((result, out.new, image.new), pending.new) ≡ part_played player text.now from pending.old out.old image.old }
{
    let taken = collect(text, from, pending);
    let p = run_taken(player, taken, pending, out);
    if taken.other {
        play_line(p, text, taken.at, out, image)
    } else {
        Played {
            player: p,
            at: taken.at,
        }
    }
}
