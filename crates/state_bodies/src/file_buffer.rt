// The bytes of a state file as they are written, one after the other, in room for the longest. Past the room nothing is written, so
// that nothing is asked of a caller.
ghost use Rattle.std.specs.Prelude.{◌≡◌, [], ◌∷◌, take};
ghost use Rattle.laws.specs.Words.{bytes_of, packed};
ghost use Rattle.state_bodies.specs.FileBuffer.{appended, new_file};

use crate::at::first;

// A file. Its length stands beside an array, since there is no heap for a `Vec`.
#[derive(Clone, Copy)]
pub struct FileBuffer {
    pub length: usize,
    pub bytes: [u8; FileBuffer::CAPACITY],
}

impl FileBuffer {
    // The room for a file. A board's file has at most 682 bytes (state_file, `length_encode`).
    pub const CAPACITY: usize = 683;

    // Returns an empty file.
    #[tactic(auto, unfolding(crate::specs::FileBuffer::new_file, laws::specs::Lists::blank))]
    pub fn new() -> FileBuffer
        ensures { result ≡ new_file }
    {
        FileBuffer {
            length: 0,
            bytes: [0; Self::CAPACITY],
        }
    }

    // Returns the bytes that are written.
    pub fn as_slice(&self) -> &[u8]
        ensures { result.now ≡ take self.now.length self.now.bytes }
    {
        first(&self.bytes, self.length)
    }

    // Appends a byte.
    #[tactic(auto, using(crate::specs::FileBufferLaws::appended_room, crate::specs::FileBufferLaws::appended_full))]
    pub fn push(&mut self, byte: u8)
        ensures { self.new ≡ appended self.old (byte ∷ []) }
    {
        if self.length < Self::CAPACITY {
            self.bytes[self.length] = byte;
            self.length += 1;
        }
    }

    // Appends a word of so many bytes, low byte first.
    fn push_word(&mut self, width: u8, word: u64)
        ensures { self.new ≡ appended self.old (bytes_of width word) }
    {
        let mut rest = word;
        for _ in 0..width {
            self.push((rest % 256) as u8);
            rest /= 256;
        }
    }

    // Appends words of given widths, as far as both go.
    pub fn push_words(&mut self, widths: &[u8], words: &[u64])
        ensures { self.new ≡ appended self.old (packed widths.now words.now) }
    {
        for (width, word) in widths.iter().zip(words) {
            self.push_word(*width, *word);
        }
    }

    // Appends bytes, as many as have room.
    pub fn extend(&mut self, bytes: &[u8])
        ensures { self.new ≡ appended self.old bytes.now }
    {
        let start = self.length.min(Self::CAPACITY);
        let part = first(bytes, Self::CAPACITY - start);
        let count = part.len();
        self.bytes[start..start + count].copy_from_slice(part);
        self.length += count;
    }
}
