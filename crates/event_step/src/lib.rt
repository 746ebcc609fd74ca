// The step behind every call and every session: one record on a board. `step_parts` takes the state by value and the arrays lent, and copies
// no array; `step` takes the whole board. Both test no validity; their contracts hold on every board.
#![tactic(auto)]

ghost use Rattle.std.specs.Prelude.{◌≡◌, List, ℕ};
ghost use Rattle.event.specs.Event.{lines_applied, applied, peeked_by, flags_of, step_of};
ghost use Rattle.bandai_fcg.specs.BoardSet.{with_arrays};
ghost use Rattle.bandai_fcg.specs.Board.{peeked, ticks};
ghost use Rattle.event_step.specs.Step.{board_of};

use bandai_fcg::board::{BandaiFCG, Board};
use event::kind::EventKind;
use event::refusal::check_event;
use event::{Answer, Event, Stepped};

// The arrays of a board, beside its state: the reader's modules, and the memories of both chips.
#[derive(Clone, Copy)]
pub struct Arrays {
    pub modules: [u8; BandaiFCG::MODULES],
    pub standard_rom: [u8; BandaiFCG::ROM_SIZE],
    pub extra_rom: [u8; BandaiFCG::ROM_SIZE],
}

impl From<Board> for Arrays {
    ghost from_gives = { λ board arrays. board_of board.bandai arrays ≡ board };

    fn from(board: Board) -> Arrays {
        let Board {
            modules,
            standard_rom,
            extra_rom,
            ..
        } = board;
        Arrays {
            modules,
            standard_rom,
            extra_rom,
        }
    }
}

impl Arrays {
    // Returns the board of a state and these arrays.
    pub fn beside(self, bandai: BandaiFCG) -> Board
        ensures { result ≡ board_of bandai self }
    {
        let Arrays {
            modules,
            standard_rom,
            extra_rom,
        } = self;
        Board {
            bandai,
            modules,
            standard_rom,
            extra_rom,
        }
    }
}

// The state after a record, and the record's answer.
#[derive(Clone, Copy)]
pub struct SteppedState {
    pub bandai: BandaiFCG,
    pub answer: Answer,
}

fn flags_of(answered: bool, pending: bool) -> u8
    ensures { result ≡ flags_of answered pending }
{
    u8::from(answered) + 2 * u8::from(pending)
}

// Returns what a record reads.
#[tactic(auto, unfolding(event::specs::Event::peeked_by))]
fn peeked_by(bandai: BandaiFCG, event: Event, modules: &[u8; BandaiFCG::MODULES]) -> Option<u8>
    ensures { (s x : List ℕ) → peeked result ≡ peeked_by event (with_arrays bandai modules.now s x) }
{
    match EventKind::try_from(event.kind) {
        Ok(EventKind::Read) => bandai.prg_peek(modules, event.address),
        _ => None,
    }
}

// Applies a lines record: chip 0 is the standard one.
fn lines_applied(bandai: BandaiFCG, event: Event, arrays: &mut Arrays) -> BandaiFCG
    ensures { board_of result arrays.new ≡ lines_applied event (board_of bandai arrays.old) }
{
    if event.chip == Event::STANDARD {
        bandai.write_standard(&mut arrays.standard_rom, event.scl, event.sda)
    } else {
        bandai.write_extra(&mut arrays.extra_rom, event.scl, event.sda)
    }
}

// Applies clocks: a single one as it is, any other count in the time of one.
#[tactic(auto, unfolding(bandai_fcg::specs::Board::ticks))]
fn clocks_applied(bandai: BandaiFCG, count: u32) -> BandaiFCG
    ensures { result ≡ ticks count bandai }
{
    if count == 1 {
        bandai.clock()
    } else {
        bandai.clocks(count)
    }
}

// Applies an accepted record.
#[tactic(auto, unfolding(event::specs::Event::applied))]
fn applied(bandai: BandaiFCG, event: Event, arrays: &mut Arrays) -> BandaiFCG
    ensures { board_of result arrays.new ≡ applied event (board_of bandai arrays.old) }
{
    match EventKind::try_from(event.kind) {
        Ok(EventKind::Write) => bandai.write_register(
            &mut arrays.standard_rom,
            &mut arrays.extra_rom,
            event.address,
            event.value,
        ),
        Ok(EventKind::Clocks) => clocks_applied(bandai, event.count),
        Ok(EventKind::Card) => bandai.input(event.number, event.count),
        Ok(EventKind::Insert) => bandai.init(&mut arrays.modules),
        Ok(EventKind::Lines) => lines_applied(bandai, event, arrays),
        Ok(EventKind::Read) | Err(_) => bandai,
    }
}

// Takes a record: returns the state after it and the answer. A refused record changes nothing and answers the pending bit as it was.
#[tactic(auto, unfolding(event::specs::Event::after_of, event::specs::Event::answer_of, event::specs::Event::step_of))]
pub fn step_parts(bandai: BandaiFCG, event: Event, arrays: &mut Arrays) -> SteppedState
    ensures { (board_of result.bandai arrays.new ≡ (step_of event (board_of bandai arrays.old)).board) × (result.answer ≡ (step_of event (board_of bandai arrays.old)).answer) }
{
    match check_event(bandai, event) {
        Ok(()) => {
            let peeked = peeked_by(bandai, event, &arrays.modules);
            let after = applied(bandai, event, arrays);
            SteppedState {
                bandai: after,
                answer: Answer {
                    refusal: 0,
                    flags: flags_of(peeked.is_some(), after.regs.irq_pending),
                    value: peeked.unwrap_or(0),
                },
            }
        }
        Err(refusal) => {
            SteppedState {
                bandai,
                answer: Answer {
                    refusal: refusal.number(),
                    flags: flags_of(false, bandai.regs.irq_pending),
                    value: 0,
                },
            }
        }
    }
}

// Takes a record on a whole board.
pub fn step(board: Board, event: Event) -> Stepped
    ensures { result ≡ step_of event board }
{
    let mut arrays = Arrays::from(board);
    let stepped = step_parts(board.bandai, event, &mut arrays);
    Stepped {
        board: arrays.beside(stepped.bandai),
        answer: stepped.answer,
    }
}
