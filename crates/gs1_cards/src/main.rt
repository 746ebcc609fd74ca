// Bar codes of cards. For each line `NUMBER DIGITS` of the standard input, a card's number and its digit count, it writes one line:
// the number of modules, the check digit, and the modules, `.` light and `#` dark. A line that is no card gets a line that says
// why, and the next one is read.
#![tactic(auto)]

ghost use Rattle.std.specs.Prelude.{◌≤◌, length};

mod parse;
mod print;

use card_words::CardError;
use output::Output;
use print::{answer, no_card};
use std::io::{Read, Write};

// A line of the input, as far as it was read, and how many bytes that are.
#[derive(Drop)]
struct Line {
    bytes: [u8; 1024],
    len: usize,
}

impl Line {
    fn new() -> Line {
        Line {
            bytes: [0; 1024],
            len: 0,
        }
    }

    // Takes a byte more, where there is room.
    fn push(&mut self, b: u8) {
        let mut line = Output {
            bytes: &mut self.bytes,
            at: self.len,
        };
        line.put(b);
        self.len = line.at;
    }

    // Answers the line. A line that fills the buffer may lack its end, and is then no card.
    fn answer(&self, out: &mut Output) {
        if self.len < self.bytes.len() {
            answer(&self.bytes[..self.len], out);
        } else {
            no_card(out, CardError::NumberNotDecimal);
        }
    }

    // Writes the answer, and begins the next line. A write that fails leaves the rest unwritten.
    fn end(&mut self, rt: &HostRuntime) {
        let mut room = [0u8; 4096];
        let mut out = Output {
            bytes: &mut room,
            at: 0,
        };
        self.answer(&mut out);
        out.put(b'\n');
        let _ = rt.stdout().write_all(out.written());
        self.len = 0;
    }

    // Takes bytes of the input: at the end of a line its answer is written.
    fn take(&mut self, rt: &HostRuntime, part: &[u8]) {
        for b in part {
            if *b == b'\n' {
                self.end(rt);
            } else {
                self.push(*b);
            }
        }
    }
}

// Reads into a buffer and returns how many bytes came: 0 at the end of the input, and where a read fails.
fn read_into(rt: &HostRuntime, room: &mut [u8]) -> usize
    ensures { result ≤ length room.new }
{
    rt.stdin().read(room).unwrap_or(0)
}

// Nothing says that the input ends, so the loop counts its reads, up to a number that no run uses up.
fn main(rt: HostRuntime) {
    let mut line = Line::new();
    for _ in 0..u64::MAX {
        let mut buffer = [0u8; 4096];
        let n = read_into(&rt, &mut buffer);
        if n == 0 {
            break;
        }
        line.take(&rt, &buffer[..n]);
    }
    if line.len > 0 {
        line.end(&rt);
    }
}
