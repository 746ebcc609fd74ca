// The words of a line, one after the other.
ghost use Rattle.std.specs.Prelude.{◌≡◌};
ghost use Rattle.std.specs.Iterator.{YieldsFirstRef, item_count};
ghost use Rattle.text.specs.Words.{code_of, words};

use text::{code_end, skip_spaces, word_end};

// What is left of a line without its comment.
#[derive(Drop)]
pub struct Words<'a> {
    pub code: &'a [u8],
}

impl<'a> Words<'a> {
    // Returns the words of a line before its comment.
    pub fn of_line(line: &'a [u8]) -> Words<'a>
        ensures { result.code.now ≡ code_of line.now }
    {
        Words {
            code: &line[..code_end(line)],
        }
    }
}

impl<'a> Iterator for Words<'a> {
    type Item = &'a [u8];

    ghost next_gives = { YieldsFirstRef (λ s. words s.code.now) };

    ghost remaining = { item_count (λ s. words s.code.now) };

    fn next(&mut self) -> Option<&'a [u8]> {
        let code = self.code;
        let start = skip_spaces(code, 0);
        if start >= code.len() {
            return None;
        }
        let stop = word_end(code, start);
        self.code = &code[stop..];
        Some(&code[start..stop])
    }
}
