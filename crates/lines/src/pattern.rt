// A pattern: a text in which each `#` stands for the next of a list of numbers.
ghost use Rattle.output.specs.Put.{Puts};
ghost use Rattle.lines.specs.Lines.{with_numbers, hex_line};

use output::Output;

// Writes a pattern: each `#` becomes the next of the numbers, in decimal.
#[tactic(auto, using(crate::proofs::Turns::number_next, crate::proofs::Turns::pattern_number, crate::proofs::Turns::pattern_byte, crate::proofs::Turns::pattern_end))]
pub fn put_pattern(out: &mut Output, pattern: &[u8], numbers: &[u64])
    ensures { Puts out.old out.new (with_numbers pattern.now numbers.now) }
{
    let mut numbers = numbers.iter();
    for b in pattern {
        if *b == b'#' {
            out.put_decimal(numbers.next().copied().unwrap_or(0));
        } else {
            out.put(*b);
        }
    }
}

// A pattern, bytes by two hexadecimal digits each, and the line's end.
#[tactic(auto, using(crate::proofs::Turns::put_end_line), unfolding(crate::specs::Lines::hex_line))]
pub fn hex_line(out: &mut Output, pattern: &[u8], numbers: &[u64], bytes: &[u8])
    ensures { Puts out.old out.new (hex_line pattern.now numbers.now bytes.now) }
{
    put_pattern(out, pattern, numbers);
    out.put_hex(bytes);
    out.put(b'\n');
}
