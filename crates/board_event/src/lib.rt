// The checked event on a board of codes, by value: what `run_event` answers on the board of the codes, and 12 where a code is unknown.
#![tactic(auto)]

ghost use Rattle.std.specs.Prelude.{◌≡◌};
ghost use Rattle.board_event.specs.Event.{event_on};

use bandai_fcg::board::Board;
use board_codes::board::BoardC;
use calls::run_event;
use event::{Answer, Event};
use refusals::Refusal;

// The board after an event and the event's answer. It does not cross: the exported function stores the board.
#[derive(Clone, Copy)]
pub struct SteppedC {
    pub board: BoardC,
    pub answer: Answer,
}

// Takes an event of any kind.
#[tactic(auto, unfolding(crate::specs::Event::event_on, crate::specs::Event::stepped_on, crate::specs::Event::unknown_on))]
pub fn event_on(b: BoardC, event: Event) -> SteppedC
    ensures { result ≡ event_on b event }
{
    if b.is_known() {
        let stepped = run_event(Board::from(b), event);
        SteppedC {
            board: BoardC::from(stepped.board),
            answer: stepped.answer,
        }
    } else {
        SteppedC {
            board: b,
            answer: Answer {
                refusal: Refusal::BoardNotValid.number(),
                flags: 0,
                value: 0,
            },
        }
    }
}
