// Replays a script from standard input and writes its answers.
#![tactic(auto)]

ghost use Rattle.std.specs.Prelude.{◌≡◌, length};

mod out;

use lines::front;
use out::{flushed, owed, with_room};
use player::Player;
use script::Line;
use script_lines::play_part;
use std::io::Read;
use text::line_end;

// What is held of the input: how many bytes, how far they were played, whether a line that is too long goes on, and whether the input has ended.
#[derive(Clone, Copy, Default)]
struct Input {
    have: usize,
    at: usize,
    skips: bool,
    ended: bool,
}

// Moves the bytes between two places to the front. Answers how many they are.
fn shift(text: &mut [u8], from: usize, to: usize) -> usize {
    let end = to.min(text.len());
    if from >= end {
        return 0;
    }
    text.copy_within(from..end, 0);
    end - from
}

// Reads into a buffer and returns how many bytes came: 0 at the end of the input, and where a read fails.
fn read_into(rt: &HostRuntime, room: &mut [u8]) -> usize {
    rt.stdin().read(room).unwrap_or(0)
}

// Reads behind what is held.
fn read_some(rt: &HostRuntime, text: &mut [u8], have: usize) -> usize {
    match text.get_mut(have..) {
        Some(room) => read_into(rt, room),
        None => 0,
    }
}

// Puts the end that a last line lacks. Answers how many bytes there are.
fn end_line(text: &mut [u8], have: usize) -> usize {
    if have == 0 || have >= text.len() {
        return have;
    }
    text[have] = b'\n';
    have + 1
}

// Returns the bytes held, to be played from the front, or past the end of a line that is too long.
fn held(text: &[u8], skips: bool) -> Input {
    let have = text.len();
    if !skips {
        return Input {
            have,
            ..Input::default()
        };
    }
    let end = line_end(text, 0);
    if end < have {
        Input {
            have,
            at: end + 1,
            ..Input::default()
        }
    } else {
        Input {
            skips: true,
            ..Input::default()
        }
    }
}

// Reads more of the input, behind what is held.
fn fill(rt: &HostRuntime, have: usize, skips: bool, text: &mut [u8]) -> Input {
    let got = read_some(rt, text, have);
    if got == 0 {
        Input {
            have: end_line(text, have),
            at: 0,
            skips,
            ended: true,
        }
    } else {
        held(front(text, have.wrapping_add(got)), skips)
    }
}

// What is held after a part that was played up to a place. Where no whole line was left, the rest goes to the front, and more is read. A part of
// a line that is longer than any is not kept.
fn after(rt: &HostRuntime, input: Input, at: usize, text: &mut [u8]) -> Input {
    if at > input.at {
        Input { at, ..input }
    } else {
        let left = shift(text, at, input.have);
        if left <= Line::LONGEST {
            fill(rt, left, input.skips, text)
        } else {
            fill(rt, 0, true, text)
        }
    }
}

// Plays the input to its end. A proved loop has to end, and nothing says that the input does. So the loop has more turns than any run uses up.
fn replay(
    rt: &HostRuntime,
    text: &mut [u8],
    pending: &mut [u64],
    out: &mut [u8],
    image: &mut [u8],
) {
    let mut player = Player::new();
    let mut input = Input::default();
    for _turn in 0..u64::MAX {
        if input.ended && input.at >= input.have {
            break;
        }
        let p = with_room(rt, player, out);
        let played = play_part(p, front(text, input.have), input.at, pending, out, image);
        let at = played.at;
        let left = input.have.wrapping_sub(at);
        player = owed(rt, played.player, at <= input.at, left, out);
        input = after(rt, input, at, text);
    }
    flushed(rt, player, out);
}

// 1,048,576 zeros. The `ensures` gives only the length, which lending the array as a slice needs.
fn image_buffer() -> [u8; 1048576]
    ensures { 1048576 ≡ length result }
{
    [0; 1048576]
}

fn main(rt: HostRuntime) {
    let mut text = [0u8; 65536];
    let mut pending = [0u64; 192];
    let mut out = [0u8; 65536];
    let mut image = image_buffer();
    replay(&rt, &mut text, &mut pending, &mut out, &mut image);
}
