// Where the words of a line begin and end.
#![tactic(auto)]

ghost use Rattle.std.specs.Prelude.{◌≡◌, ◌+◌, drop};
ghost use Rattle.laws.specs.Lists.{same};
ghost use Rattle.text.specs.Words.{is_space, in_word, in_code, in_line, run};

fn is_space(b: u8) -> bool
    ensures { result ≡ is_space b }
{
    matches!(b, b' ' | b'\t' | b'\r')
}

// The bytes from a place on: none past the end.
fn rest(line: &[u8], from: usize) -> &[u8]
    ensures { result.now ≡ drop from line.now }
{
    line.get(from..).unwrap_or(&[])
}

// Past the spaces that stand at a place.
pub fn skip_spaces(line: &[u8], from: usize) -> usize
    ensures { result ≡ from + run is_space (drop from line.now) }
{
    from + rest(line, from)
        .iter()
        .take_while(|b| is_space(**b))
        .count()
}

// Past the word that stands at a place.
pub fn word_end(line: &[u8], from: usize) -> usize
    ensures { result ≡ from + run in_word (drop from line.now) }
{
    from + rest(line, from)
        .iter()
        .take_while(|b| !is_space(**b))
        .count()
}

// Where a line's comment begins, or the line ends.
pub fn code_end(line: &[u8]) -> usize
    ensures { result ≡ run in_code line.now }
{
    line.iter().take_while(|b| **b != b'#').count()
}

// Where the line that starts at a place ends, or the text.
pub fn line_end(text: &[u8], from: usize) -> usize
    ensures { result ≡ from + run in_line (drop from text.now) }
{
    from + rest(text, from).iter().take_while(|b| **b != b'\n').count()
}

// Whether a word is this one.
#[tactic(auto, using(crate::proofs::Turns::same_pointwise))]
pub fn is_word(word: &[u8], name: &[u8]) -> bool
    ensures { result ≡ same word.now name.now }
{
    word == name
}
