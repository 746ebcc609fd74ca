// Bytes put into a lent buffer from a place on, where there is room.
#![tactic(auto)]

ghost use Rattle.std.specs.Prelude.{◌≡◌, map, ◌<◌, min};
ghost use Rattle.laws.specs.Decimal.{decimal, zeros_before};
ghost use Rattle.output.specs.Put.{decimal_digit, decimal_of, hex_digit, hex_byte, hex_of, hex_word, placed_in, Puts, PutsByte};
ghost use Rattle.output.specs.PutLaws.{written};

// A lent buffer and the place of the next byte. What has no room is left out.
#[derive(Drop)]
pub struct Output<'a> {
    pub bytes: &'a mut [u8],
    pub at: usize,
}

impl<'a> Output<'a> {
    // The bytes that stand before the place.
    pub fn written(&self) -> &[u8]
        ensures { result.now ≡ written (placed_in self.now) }
    {
        let bytes = &*self.bytes;
        bytes.get(..self.at).unwrap_or(bytes)
    }

    // Puts one byte.
    #[tactic(auto, unfolding(crate::specs::Put::put), using(laws::proofs::AppendLaws::append_room, laws::proofs::AppendLaws::append_full))]
    pub fn put(&mut self, byte: u8)
        ensures { PutsByte self.old self.new byte }
    {
        // By the index: with get_mut the proof did not close.
        if self.at < self.bytes.len() {
            self.bytes[self.at] = byte;
            self.at += 1;
        }
    }

    // Puts bytes one after the other.
    #[tactic(auto, using(crate::proofs::Turns::put_more, crate::proofs::Turns::put_end))]
    pub fn put_all(&mut self, part: &[u8])
        ensures { Puts self.old self.new part.now }
    {
        for byte in part {
            self.put(*byte);
        }
    }

    // Puts the decimal digits of a number, at most `room` of them.
    #[tactic(auto, using(crate::proofs::Turns::decimal_none, crate::proofs::Turns::decimal_last, crate::proofs::Turns::decimal_more))]
    fn put_digits(&mut self, room: u8, n: u64)
        ensures { Puts self.old self.new (map decimal_digit (zeros_before (min 1 room) (decimal room n))) }
    {
        if room == 0 {
            return;
        }
        if n < 10 {
            self.put(b'0' + n as u8);
        } else {
            self.put_digits(room - 1, n / 10);
            self.put(b'0' + (n % 10) as u8);
        }
    }

    // Puts a number by its decimal digits.
    #[tactic(auto, unfolding(crate::specs::Put::decimal_of))]
    pub fn put_decimal(&mut self, n: u64)
        ensures { Puts self.old self.new (decimal_of n) }
    {
        self.put_digits(20, n);
    }

    #[tactic(auto, using(crate::specs::PutLaws::put_one, crate::specs::PutLaws::put_first))]
    fn put_hex_byte(&mut self, byte: u8)
        ensures { Puts self.old self.new (hex_byte byte) }
    {
        self.put(hex_digit(byte / 16));
        self.put(hex_digit(byte % 16));
    }

    // Puts bytes by two hexadecimal digits each.
    #[tactic(auto, using(crate::proofs::Turns::hex_more, crate::proofs::Turns::hex_end))]
    pub fn put_hex(&mut self, bytes: &[u8])
        ensures { Puts self.old self.new (hex_of bytes.now) }
    {
        for byte in bytes {
            self.put_hex_byte(*byte);
        }
    }

    // Puts a word of 32 bits by eight hexadecimal digits.
    pub fn put_hex_word(&mut self, word: u32)
        ensures { Puts self.old self.new (hex_word word) }
    {
        self.put_hex(&word.to_be_bytes());
    }
}

fn hex_digit(d: u8) -> u8
    requires { d < 16 }
    ensures { result ≡ hex_digit d }
{
    if d < 10 { b'0' + d } else { b'a' - 10 + d }
}
