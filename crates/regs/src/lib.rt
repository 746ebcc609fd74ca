// The board's registers, and what a register write and a clock do to them.
#![tactic(auto)]

ghost use Rattle.std.specs.Prelude.{◌≡◌, ℕ, ◌+◌, ◌%◌, ◌<◌, nat_lt};
ghost use Rattle.laws.specs.Lists.{every};
ghost use Rattle.regs.specs.RegsWords.{eight_at, eight_cut, regs_words, regs_of};
ghost use Rattle.regs.specs.RegsSet.{with_prg_page, with_mirroring};
ghost use Rattle.regs.specs.Regs.{new_regs, even, prg_bank_select, irq_ctrl, low_byte, high_byte, irq_latch, ram_enabled, write_chr_bank, ram_mapped, step_down, tick_regs, ticks_regs, write_regs};

use cart::Cart;
use laws::{byte_at, flag, word_at};

#[repr(C)]
#[derive(Clone, Copy, Default)]
pub struct Regs {
    pub irq_counter: u16,
    pub irq_reload: u16,
    pub prg_page: u8,
    pub prg_bank_select: u8,
    pub mirroring: u8,
    pub prg_ram_enabled: bool,
    pub irq_enabled: bool,
    pub irq_pending: bool,
    pub chr_regs: [u8; 8],
    pub chr_banks: [u8; 8],
}

// The word with its low byte set.
fn low_byte(word: u16, val: u8) -> u16
    ensures { result ≡ low_byte word val }
{
    word / 256 * 256 + u16::from(val)
}

// The word with its high byte set.
fn high_byte(word: u16, val: u8) -> u16
    ensures { result ≡ high_byte word val }
{
    word % 256 + u16::from(val) * 256
}

// The counter `by` steps further down, from 0 to 65,535.
fn step_down(counter: u16, by: u16) -> u16
    ensures { result ≡ step_down counter by }
{
    counter.wrapping_sub(by)
}

// Returns the counter `count` clocks on.
pub fn count_down(counter: u16, count: u32) -> u16
    ensures { result ≡ step_down counter (count % 65536) }
{
    step_down(counter, (count % 65536) as u16)
}

// Returns whether the counter finds 0 within `count` clocks.
pub fn finds_zero(counter: u16, count: u32) -> bool
    ensures { result ≡ nat_lt counter count }
{
    u32::from(counter) < count
}

// Whether each of the CHR registers has bit 0 clear.
fn all_even(regs: &[u8]) -> bool
    ensures { result ≡ every even regs.now }
{
    regs.iter().all(|r| r % 2 == 0)
}

// The high PRG bank: 16 if any of the CHR registers has bit 0.
#[tactic(auto, unfolding(crate::specs::Regs::prg_bank_select))]
fn prg_bank_select(regs: [u8; 8]) -> u8
    ensures { result ≡ prg_bank_select regs }
{
    if all_even(&regs) { 0 } else { 16 }
}

// Eight bytes as words.
fn eight_words(bytes: [u8; 8]) -> [u64; 8]
    ensures { result ≡ eight_at bytes 0 }
{
    bytes.map(|byte| u64::from(byte))
}

// The bytes of eight words from a place on.
fn eight_at(words: &[u64], at: usize) -> [u8; 8]
    requires { at < 1000 }
    ensures { result ≡ eight_cut words.now at }
{
    std::array::from_fn(|i| byte_at(words, at + i))
}

impl Regs {
    // The fields as words, with their widths in bytes: `WIDTHS[i]` is the width of word i.
    pub const WORDS: usize = 24;

    pub const WIDTHS: [u8; Self::WORDS] = [
        1, 1, 1, 1, 1, 1, 1, 1, 1, 1, 1, 2, 1, 1, 2, 1, 1, 1, 1, 1, 1, 1, 1, 1,
    ];

    // Returns the fields as words.
    pub fn words(self) -> [u64; Self::WORDS]
        ensures { result ≡ regs_words self }
    {
        let regs = eight_words(self.chr_regs);
        let banks = eight_words(self.chr_banks);
        [
            u64::from(self.prg_page),
            u64::from(self.prg_bank_select),
            flag(self.prg_ram_enabled),
            regs[0],
            regs[1],
            regs[2],
            regs[3],
            regs[4],
            regs[5],
            regs[6],
            regs[7],
            u64::from(self.irq_counter),
            flag(self.irq_enabled),
            flag(self.irq_pending),
            u64::from(self.irq_reload),
            u64::from(self.mirroring),
            banks[0],
            banks[1],
            banks[2],
            banks[3],
            banks[4],
            banks[5],
            banks[6],
            banks[7],
        ]
    }

    // Returns the registers with these words, each cut to its width. A missing word is 0, and a flag is set where its word is 1.
    #[tactic(auto, unfolding(crate::specs::RegsWords::regs_of))]
    pub fn of_words(words: &[u64]) -> Regs
        ensures { result ≡ regs_of words.now }
    {
        Regs {
            prg_page: byte_at(words, 0),
            prg_bank_select: byte_at(words, 1),
            prg_ram_enabled: byte_at(words, 2) == 1,
            chr_regs: eight_at(words, 3),
            irq_counter: (word_at(words, 11) % 65536) as u16,
            irq_enabled: byte_at(words, 12) == 1,
            irq_pending: byte_at(words, 13) == 1,
            irq_reload: (word_at(words, 14) % 65536) as u16,
            mirroring: byte_at(words, 15),
            chr_banks: eight_at(words, 16),
        }
    }

    // Returns the registers of a fresh board.
    #[tactic(auto, unfolding(laws::specs::Lists::blank))]
    pub fn new(mirroring: u8) -> Regs
        ensures { result ≡ new_regs mirroring }
    {
        Regs {
            mirroring,
            ..Regs::default()
        }
    }

    fn write_chr_bank(mut self, cart: Cart, bank: u8, val: u8) -> Regs
        ensures { result ≡ write_chr_bank cart bank val self }
    {
        let at = (bank % 8) as usize;
        self.chr_regs[at] = val;
        if cart.supplies_prg_bank() {
            self.prg_bank_select = prg_bank_select(self.chr_regs);
        } else if cart.banks_chr() {
            self.chr_banks[at] = val;
        }
        self
    }

    fn write_prg_bank(mut self, val: u8) -> Regs
        ensures { result ≡ with_prg_page (val % 16) self }
    {
        self.prg_page = val % 16;
        self
    }

    fn write_mirroring(mut self, val: u8) -> Regs
        ensures { result ≡ with_mirroring (val % 4) self }
    {
        self.mirroring = val % 4;
        self
    }

    fn write_irq_ctrl(mut self, cart: Cart, val: u8) -> Regs
        ensures { result ≡ irq_ctrl cart val self }
    {
        self.irq_enabled = val % 2 == 1;
        self.irq_pending = false;
        if cart.has_irq_latch() {
            self.irq_counter = self.irq_reload;
        }
        self
    }

    // Sets a byte of the reload, or of the counter where there is no reload.
    fn write_irq_latch<F: Fn(u16) -> u16>(mut self, cart: Cart, byte: F) -> Regs
        requires { F.IsAlwaysCallable byte }
        ensures { (f : ℕ → ℕ) → ((x y : ℕ) → F.post byte x y → y ≡ f x) → result ≡ irq_latch cart f self }
    {
        if cart.has_irq_latch() {
            self.irq_reload = byte(self.irq_reload);
        } else {
            self.irq_counter = byte(self.irq_counter);
        }
        self
    }

    fn write_ram_enabled(mut self, cart: Cart, val: u8) -> Regs
        ensures { result ≡ ram_enabled cart val self }
    {
        if cart.mapper_num == Cart::LZ93D50_SRAM {
            self.prg_ram_enabled = val / 32 % 2 == 1;
        }
        self
    }

    // What a write of `val` to the register `reg` of the sixteen does to the registers.
    #[tactic(auto, unfolding(crate::specs::Regs::write_regs))]
    pub fn write(self, cart: Cart, reg: u8, val: u8) -> Regs
        ensures { result ≡ write_regs cart reg val self }
    {
        // A rule of the project: plain calls and ifs stand for the match of the published board.
        if reg < 8 {
            self.write_chr_bank(cart, reg, val)
        } else if reg == 8 {
            self.write_prg_bank(val)
        } else if reg == 9 {
            self.write_mirroring(val)
        } else if reg == 10 {
            self.write_irq_ctrl(cart, val)
        } else if reg == 11 {
            self.write_irq_latch(cart, |word| low_byte(word, val))
        } else if reg == 12 {
            self.write_irq_latch(cart, |word| high_byte(word, val))
        } else if reg == 13 {
            self.write_ram_enabled(cart, val)
        } else {
            self
        }
    }

    // Returns whether PRG RAM is mapped: on 153, with RAM enabled.
    pub fn ram_mapped(self, cart: Cart) -> bool
        ensures { result ≡ ram_mapped cart self }
    {
        cart.mapper_num == Cart::LZ93D50_SRAM && self.prg_ram_enabled
    }

    // One clock: with counting on, a counter at 0 sets pending, and the counter steps down, from 0 to 65,535.
    #[tactic(auto, unfolding(crate::specs::Regs::tick_regs))]
    pub fn clock(mut self) -> Regs
        ensures { result ≡ tick_regs self }
    {
        if self.irq_enabled {
            self.irq_pending |= self.irq_counter == 0;
            self.irq_counter = step_down(self.irq_counter, 1);
        }
        self
    }

    // `count` clocks at once.
    #[tactic(auto, using(crate::proofs::RegsLaws::counted_regs_lem))]
    pub fn clocks(mut self, count: u32) -> Regs
        ensures { result ≡ ticks_regs count self }
    {
        if self.irq_enabled {
            self.irq_pending |= finds_zero(self.irq_counter, count);
            self.irq_counter = count_down(self.irq_counter, count);
        }
        self
    }
}
