// Body 2: the board's registers.
ghost use Rattle.std.specs.Prelude.{◌≡◌};
ghost use Rattle.state_bodies.specs.Bodies.{regs_bytes, regs_at};
ghost use Rattle.state_bodies.specs.FileBuffer.{appended};

use crate::at::unpack;
use crate::file_buffer::FileBuffer;
use regs::Regs;

pub const REGS_LENGTH: u16 = 26;

impl FileBuffer {
    // Appends body 2.
    #[tactic(auto, unfolding(crate::specs::Bodies::regs_bytes))]
    pub fn push_regs(&mut self, regs: Regs)
        ensures { self.new ≡ appended self.old (regs_bytes regs) }
    {
        self.push_words(&Regs::WIDTHS, &regs.words());
    }
}

// Reads body 2.
#[tactic(auto, unfolding(crate::specs::Bodies::regs_at, laws::specs::Lists::every))]
pub fn regs_at(f: &[u8], at: u16) -> Regs
    ensures { result ≡ regs_at f.now at }
{
    Regs::of_words(&unpack(f, at, &Regs::WIDTHS))
}
