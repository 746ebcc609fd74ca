// The event that a line of a replay script asks for.
#![tactic(auto)]

ghost use Rattle.std.specs.Prelude.{◌≡◌};
ghost use Rattle.event_words.specs.Words.{words_of};
ghost use Rattle.script_events.specs.Events.{is_event, line_event};

use commands::Command;
use event::kind::EventKind;
use event_words::words_of;
use script::Line;

// Returns whether a command is an event.
pub fn is_event(command: Command) -> bool
    ensures { result ≡ is_event command }
{
    matches!(
        command,
        Command::Write
            | Command::Read
            | Command::Clocks
            | Command::Card
            | Command::Insert
            | Command::Lines
            | Command::Event
    )
}

// Returns the three words of the event of a line; those of `insert` where it asks for none. No record is made of them here.
#[tactic(auto, unfolding(crate::specs::Events::line_event))]
pub fn line_words(line: Line) -> [u64; 3]
    ensures { result ≡ words_of (line_event line) }
{
    let v = line.value;
    match line.command {
        Command::Write => words_of(&[EventKind::Write as u64, v[0], v[1]]),
        Command::Read => words_of(&[EventKind::Read as u64, v[0]]),
        Command::Clocks => words_of(&[EventKind::Clocks as u64, 0, 0, v[0]]),
        Command::Card => words_of(&[EventKind::Card as u64, 0, 0, v[1], v[0]]),
        Command::Lines => words_of(&[EventKind::Lines as u64, 0, 0, 0, 0, v[0], v[1], v[2]]),
        Command::Event => words_of(&v),
        _ => words_of(&[EventKind::Insert as u64]),
    }
}
