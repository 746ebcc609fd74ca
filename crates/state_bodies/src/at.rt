// Words and bytes at a place of any bytes. Past the end every byte is 0, so that nothing is asked of a caller.
ghost use Rattle.std.specs.Prelude.{◌≡◌, true, ◌+◌, ◌<◌, ◌≤◌, get_or, take};
ghost use Rattle.laws.specs.Lists.{blank, every};
ghost use Rattle.laws.specs.Words.{word_at, unpacked};
ghost use Rattle.state_bodies.specs.Bodies.{is_width, read_into};

// Returns the first items of a slice, all of them where it has no more.
pub fn first<T>(items: &[T], count: usize) -> &[T]
    ensures { result.now ≡ take count items.now }
{
    &items[..count.min(items.len())]
}

// Byte i of a file, 0 past its end.
fn byte(f: &[u8], i: usize) -> u8
    ensures { result ≡ get_or f.now i 0 }
{
    f.get(i).copied().unwrap_or(0)
}

// The word of `width` bytes at a place, low byte first.
fn word(f: &[u8], at: usize, width: u8) -> u64
    requires { (at < 1000000) × (width ≤ 8) }
    ensures { result ≡ word_at f.now at width }
{
    let mut above: u64 = 0;
    for i in (0..width as usize).rev() {
        above = above * 256 + byte(f, at + i) as u64;
    }
    above
}

// Returns the byte k places into a body.
#[tactic(auto, unfolding(laws::specs::Words::word_at))]
pub fn u8_at(f: &[u8], at: u16, k: u16) -> u8
    ensures { result ≡ word_at f.now (at + k) 1 }
{
    byte(f, at as usize + k as usize)
}

// Returns the word of two bytes at a place.
#[tactic(auto, unfolding(laws::specs::Words::word_at))]
pub fn u16_at(f: &[u8], at: u16) -> u16
    ensures { result ≡ word_at f.now at 2 }
{
    let at = at as usize;
    u16::from_le_bytes([byte(f, at), byte(f, at + 1)])
}

// The words of given widths from a place on. They are stored by index: of a slice that `iter_mut` lends to a `zip` a proof knows only the
// length.
pub fn unpack<const N: usize>(f: &[u8], at: u16, widths: &[u8; N]) -> [u64; N]
    requires { (every is_width widths.now ≡ true) × (N ≤ 100) }
    ensures { result ≡ unpacked widths.now f.now at }
{
    let mut words = [0; N];
    let mut place = at as usize;
    for (i, width) in widths.iter().enumerate() {
        words[i] = word(f, place, *width);
        place += *width as usize;
    }
    words
}

// The `count` bytes from a place on, as far as there is room for them, and zeros past them. They are stored by index: for `array::from_fn`
// the clause of its closure would have to name N, which it cannot.
pub fn bytes_at<const N: usize>(f: &[u8], at: u16, k: u16, count: u16) -> [u8; N]
    ensures { result ≡ read_into (blank N) f.now (at + k) count }
{
    let from = at as usize + k as usize;
    let mut bytes = [0; N];
    for i in 0..N.min(count as usize) {
        bytes[i] = byte(f, from + i);
    }
    bytes
}
