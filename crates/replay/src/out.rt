// The output: when it is written, and the report of a line that is too long.
ghost use Rattle.std.specs.Prelude.{◌≡◌, nat_lt};
ghost use Rattle.laws.specs.Choice.{pick};
ghost use Rattle.player.specs.Player.{with_place};
ghost use Rattle.replay.specs.Replay.{reported_of, owed_of};

use play::too_long;
use player::Player;
use script::Line;
use std::io::Write;

// Writes what there is of the output. A write that fails leaves the rest unwritten.
pub fn flushed(rt: &HostRuntime, player: Player, out: &[u8]) -> Player
    ensures { result ≡ with_place 0 player }
{
    if let Some(text) = out.get(..player.place) {
        let _ = rt.stdout().write_all(text);
    }
    Player { place: 0, ..player }
}

// Room for what any line answers.
pub fn with_room(rt: &HostRuntime, player: Player, out: &[u8]) -> Player
    ensures { result ≡ pick (nat_lt player.place 32768) player (with_place 0 player) }
{
    if player.place < 32768 {
        player
    } else {
        flushed(rt, player, out)
    }
}

// Reports a line of which more is held than any line may have.
fn reported(player: Player, left: usize, out: &mut [u8]) -> Player
    ensures { (result, out.new) ≡ reported_of left player out.old }
{
    if left <= Line::LONGEST {
        player
    } else {
        too_long(player, out)
    }
}

// Where more is read next, reports a line that is too long, and writes the output. Else changes nothing.
pub fn owed(rt: &HostRuntime, player: Player, reads: bool, left: usize, out: &mut [u8]) -> Player
    ensures { (result, out.new) ≡ owed_of reads left player out.old }
{
    if reads {
        flushed(rt, reported(player, left, out), out)
    } else {
        player
    }
}
