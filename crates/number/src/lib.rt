// The number that a word stands for, and bytes by their hexadecimal digits.
#![tactic(auto)]

ghost use Rattle.std.specs.Prelude.{◌≡◌, ◌+◌, ◌*◌, ◌%◌, ◌<◌, ◌^◌, SomeIff};
ghost use Rattle.laws.specs.Lists.{every};
ghost use Rattle.number.specs.Number.{digit_of, is_digit_of, base_of, are_digits, number_from, is_hex, number_in, number_of, bytes_of, as_number};
ghost use Rattle.output.specs.Put.{put_all};

use output::Output;

// Why a word stands for no number of 64 bits.
#[derive(Clone, Copy, PartialEq, Eq, Debug)]
pub enum NumberError {
    NotANumber = 1,
    TooLarge = 2,
}

// What a digit stands for; 255 where it is none. That is no Option, as `digit_of` has the 255, which `byte_of` reads.
#[tactic(auto, unfolding(crate::specs::Number::digit_of))]
fn digit(b: u8) -> u8
    ensures { result ≡ digit_of b }
{
    // By ifs, for speed: a match of the three ranges compares each digit with both ends of each.
    if matches!(b, b'0'..=b'9') {
        b - b'0'
    } else if matches!(b, b'a'..=b'f') {
        b - b'a' + 10
    } else if matches!(b, b'A'..=b'F') {
        b - b'A' + 10
    } else {
        255
    }
}

// The base is told by a flag here and below, as in the definitions (`base_of`, `number_in`).
fn base(hex: bool) -> u8
    ensures { result ≡ base_of hex }
{
    if hex { 16 } else { 10 }
}

// Whether each byte of a word is a digit.
fn all_digits(word: &[u8], hex: bool) -> bool
    ensures { result ≡ every (is_digit_of hex) word.now }
{
    // Without an early exit, for speed: what a line holds may be some 4,000 digits.
    word.iter()
        .fold(true, |all, b| all & (digit(*b) < base(hex)))
}

// Whether a word is digits, at least one, and nothing else.
pub fn are_digits(word: &[u8], hex: bool) -> bool
    ensures { result ≡ are_digits hex word.now }
{
    !word.is_empty() && all_digits(word, hex)
}

// A number with a digit more, where it has 64 bits.
fn shifted(n: u64, d: u8, hex: bool) -> Option<u64>
    ensures { SomeIff result (n * base_of hex + d < 2 ^ 64) (n * base_of hex + d) }
{
    let tens = n.checked_mul(u64::from(base(hex)))?;
    tens.checked_add(u64::from(d))
}

// The number of digits.
fn value_of(word: &[u8], hex: bool) -> Result<u64, NumberError>
    ensures { as_number result ≡ number_from hex word.now }
{
    let mut value = 0;
    for b in word {
        value = shifted(value, digit(*b), hex).ok_or(NumberError::TooLarge)?;
    }
    Ok(value)
}

// The number of digits in base ten, or sixteen.
#[tactic(auto, unfolding(crate::specs::Number::number_in))]
pub fn number_in(word: &[u8], hex: bool) -> Result<u64, NumberError>
    ensures { as_number result ≡ number_in hex word.now }
{
    if are_digits(word, hex) {
        value_of(word, hex)
    } else {
        Err(NumberError::NotANumber)
    }
}

// The number of a word.
#[tactic(auto, unfolding(crate::specs::Number::number_of))]
pub fn number_of(word: &[u8]) -> Result<u64, NumberError>
    ensures { as_number result ≡ number_of word.now }
{
    match word {
        [b'0', b'x' | b'X', digits @ ..] => number_in(digits, true),
        _ => number_in(word, false),
    }
}

fn byte_of(high: u8, low: u8) -> u8
    ensures { result ≡ digit_of high % 16 * 16 + digit_of low % 16 }
{
    digit(high) % 16 * 16 + digit(low) % 16
}

// The bytes of hexadecimal digits, two a byte, at the front of a buffer. Answers how many.
#[tactic(auto, using(crate::proofs::Turns::bytes_more, crate::proofs::Turns::bytes_end))]
pub fn read_hex(word: &[u8], bytes: &mut [u8]) -> usize
    ensures { (bytes.new, result) ≡ put_all (bytes.old, 0) (bytes_of word.now) }
{
    let mut out = Output { bytes, at: 0 };
    for pair in word.chunks_exact(2) {
        out.put(byte_of(pair[0], pair[1]));
    }
    out.at
}
