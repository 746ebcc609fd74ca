// The lines of event answers.
ghost use Rattle.output.specs.Put.{decimal_of, Puts};
ghost use Rattle.lines.specs.Lines.{answer_line, answer_lines, refused_lines};

use output::Output;

// A byte by its decimal digits.
pub fn put_byte(out: &mut Output, n: u8)
    ensures { Puts out.old out.new (decimal_of n) }
{
    out.put_decimal(u64::from(n));
}

// The line of an event's answer.
#[tactic(auto, using(crate::proofs::Turns::line_put))]
fn answer_line(out: &mut Output, refusal: u8, flags: u8, value: u8)
    ensures { Puts out.old out.new (answer_line refusal flags value) }
{
    put_byte(out, refusal);
    out.put(b' ');
    put_byte(out, flags);
    out.put(b' ');
    put_byte(out, value);
    out.put(b'\n');
}

// The lines of answers, three bytes each.
#[tactic(auto, using(crate::proofs::Turns::lines_more, crate::proofs::Turns::lines_end))]
pub fn answer_lines(out: &mut Output, answers: &[u8])
    ensures { Puts out.old out.new (answer_lines answers.now) }
{
    for answer in answers.chunks_exact(3) {
        answer_line(out, answer[0], answer[1], answer[2]);
    }
}

// The lines of events that were refused as a whole: the refusal, for each.
#[tactic(auto, using(crate::proofs::Turns::refused_more, crate::proofs::Turns::refused_end))]
pub fn refused_lines(out: &mut Output, refusal: u8, count: usize)
    ensures { Puts out.old out.new (refused_lines refusal count) }
{
    for _line in 0..count {
        answer_line(out, refusal, 0, 0);
    }
}
