// Lists of numbers and bytes.
ghost use Rattle.std.specs.Prelude.{◌≡◌, take};
ghost use Rattle.output.specs.Put.{Puts};
ghost use Rattle.lines.specs.Lines.{spaced_words, bytes_line, words_line};

use output::Output;

// The first `n` of a list; all where it has no more.
pub fn front(bytes: &[u8], n: usize) -> &[u8]
    ensures { result.now ≡ take n bytes.now }
{
    bytes.get(..n).unwrap_or(bytes)
}

// The words of a list by eight hexadecimal digits each, a space before each.
#[tactic(auto, using(crate::proofs::Turns::spaced_more, crate::proofs::Turns::joined_end))]
fn put_words(out: &mut Output, words: &[u32])
    ensures { Puts out.old out.new (spaced_words words.now) }
{
    for word in words {
        out.put(b' ');
        out.put_hex_word(*word);
    }
}

// A name and the words of a list.
#[tactic(auto, using(crate::proofs::Turns::put_end_line), unfolding(crate::specs::Lines::words_line))]
pub fn words_line(out: &mut Output, name: &[u8], words: &[u32])
    ensures { Puts out.old out.new (words_line name.now words.now) }
{
    out.put_all(name);
    put_words(out, words);
    out.put(b'\n');
}

// A name and bytes by two hexadecimal digits each; the name alone where there is none.
#[tactic(auto, using(output::specs::PutLaws::put_then, output::specs::PutLaws::put_last), unfolding(crate::specs::Lines::bytes_line))]
pub fn bytes_line(out: &mut Output, name: &[u8], bytes: &[u8])
    ensures { Puts out.old out.new (bytes_line name.now bytes.now) }
{
    out.put_all(name);
    if bytes.is_empty() {
        out.put(b'\n');
    } else {
        out.put(b' ');
        out.put_hex(bytes);
        out.put(b'\n');
    }
}
