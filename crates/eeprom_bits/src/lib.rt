// Bytes on the lines of a serial EEPROM: the bit of a byte that passes, the slave bytes that a chip answers, the cell after a stored one.
// What differs between the crate's chip and the X24C02's datasheet goes by the chip rule.
#![tactic(auto)]

ghost use Rattle.std.specs.Prelude.{◌≡◌, ◌<◌};
ghost use Rattle.eeprom_bits.specs.Bits.{rule_of, bit_at, put_bit, bit_place, write_bit, read_bit, slave_passes, slave_reads, next_in_group};

// The chip rule: the crate's, or that of the Xicor X24C02's datasheet. A rule's code is its number here.
#[derive(Clone, Copy, PartialEq, Eq)]
pub enum EepromRule {
    Crate = 0,
    Datasheet = 1,
}

impl EepromRule {
    // The code of the datasheet's rule, the last one.
    pub const DATASHEET: u8 = EepromRule::Datasheet as u8;
}

impl From<u8> for EepromRule {
    ghost from_gives = { λ code rule. rule ≡ rule_of code };

    // Returns the rule of a code. Any other code stands for the first.
    fn from(code: u8) -> EepromRule {
        if code == EepromRule::DATASHEET {
            EepromRule::Datasheet
        } else {
            EepromRule::Crate
        }
    }
}

// Returns bit `at` of a byte, counted from the low end.
fn bit_at(byte: u8, at: u8) -> u8
    requires { at < 8 }
    ensures { result ≡ bit_at byte at }
{
    (byte >> at) % 2
}

// Sets bit `at` of a byte high or low.
fn put_bit(byte: u8, at: u8, high: bool) -> u8
    requires { at < 8 }
    ensures { result ≡ put_bit byte at high }
{
    let bit = 1 << at;
    if high { byte | bit } else { byte & !bit }
}

// Returns the bit that a counter selects: the crate sends low bits first, the datasheet high bits first.
fn bit_place(rule: EepromRule, counter: u8) -> u8
    requires { counter < 8 }
    ensures { (result ≡ bit_place rule counter) × (result < 8) }
{
    match rule {
        EepromRule::Crate => counter,
        EepromRule::Datasheet => 7 - counter,
    }
}

// Returns `byte` with the bit that passes written into it. It is unchanged where all eight bits have passed.
pub fn write_bit(rule: EepromRule, byte: u8, counter: u8, high: bool) -> u8
    ensures { result ≡ write_bit rule byte counter high }
{
    if counter < 8 {
        put_bit(byte, bit_place(rule, counter), high)
    } else {
        byte
    }
}

// Returns the bit of `byte` that passes, or `output` where all eight bits have passed.
pub fn read_bit(rule: EepromRule, byte: u8, counter: u8, output: u8) -> u8
    ensures { result ≡ read_bit rule byte counter output }
{
    if counter < 8 {
        bit_at(byte, bit_place(rule, counter))
    } else {
        output
    }
}

// Returns whether a chip answers a slave byte. The crate tests bits 7 and 5; the datasheet wants 1010 and device bits 000.
pub fn slave_passes(rule: EepromRule, slave: u8) -> bool
    ensures { result ≡ slave_passes rule slave }
{
    match rule {
        EepromRule::Crate => bit_at(slave, 7) == 1 && bit_at(slave, 5) == 1,
        EepromRule::Datasheet => slave / 2 == 0x50,
    }
}

// Returns whether a slave byte asks to read.
pub fn slave_reads(slave: u8) -> bool
    ensures { result ≡ slave_reads slave }
{
    slave % 2 == 1
}

// Returns the word address after `addr` within its four cells: the two low bits wrap.
pub fn next_in_group(addr: u8) -> u8
    ensures { result ≡ next_in_group addr }
{
    addr / 4 * 4 + (addr % 4 + 1) % 4
}
