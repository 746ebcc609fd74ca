// The command that a word names.
ghost use Rattle.std.specs.Prelude.{◌≡◌};
ghost use Rattle.commands.specs.Commands.{command_of};

use crate::Command;
use text::is_word;

// The words that name commands. A table and not a `match`: a match of byte strings tests each byte, and leaves a goal for each.
const NAMES: [(&[u8], Command); 22] = [
    (b"fit", Command::Fit),
    (b"write", Command::Write),
    (b"read", Command::Read),
    (b"clocks", Command::Clocks),
    (b"card", Command::Card),
    (b"insert", Command::Insert),
    (b"lines", Command::Lines),
    (b"event", Command::Event),
    (b"counts", Command::Counts),
    (b"stop", Command::Stop),
    (b"file", Command::File),
    (b"resume", Command::Resume),
    (b"pages", Command::Pages),
    (b"state", Command::State),
    (b"bars", Command::Bars),
    (b"image", Command::Image),
    (b"view", Command::View),
    (b"poke", Command::Poke),
    (b"module", Command::Module),
    (b"view2", Command::View2),
    (b"poke2", Command::Poke2),
    (b"decode", Command::Decode),
];

// Returns the command that a word names.
pub fn command_of(word: &[u8]) -> Command
    ensures { result ≡ command_of word.now }
{
    NAMES
        .iter()
        .find(|(name, _)| is_word(word, name))
        .map_or(Command::Unknown, |(_, command)| *command)
}
