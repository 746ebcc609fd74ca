// A session over lent words.
ghost use Rattle.std.specs.Prelude.{◌≡◌};
ghost use Rattle.event_words.specs.Words.{events_of};
ghost use Rattle.session.specs.Session.{ended};
ghost use Rattle.molbitak_session.specs.Sessions.{end_on, session_on};

use board_codes::board::BoardC;
use refusals::Refusal;
use session::SessionEnd;
use word_session::run_words;

// The result of a session, its board as codes and its refusal as a number, as the C interface has them.
#[repr(C)]
#[derive(Clone, Copy)]
pub struct SessionC {
    pub board: BoardC,
    pub records: usize,
    pub refused: usize,
    pub refusal: u8,
}

// Returns the end of a session from `b` as codes; where a code is unknown, `b` and 12.
#[tactic(auto, unfolding(crate::specs::Sessions::end_on))]
fn end_on(b: BoardC, end: SessionEnd) -> SessionC
    ensures { result ≡ end_on b (ended end) }
{
    if b.is_known() {
        SessionC {
            board: BoardC::from(end.board),
            records: end.records,
            refused: end.refused,
            refusal: end.refusal.map_or(0, Refusal::number),
        }
    } else {
        SessionC {
            board: b,
            records: 0,
            refused: 0,
            refusal: Refusal::BoardNotValid.number(),
        }
    }
}

// Runs the events of the words in order from a board: 12, then 10, with the board and the buffer as they were. An event is three words, as
// Rust's `&[Event]` lies in memory.
#[tactic(auto, using(crate::proofs::SessionsLaws::session_on_lem))]
#[unsafe(no_mangle)]
pub extern "C" fn molbitak_session(b: BoardC, words: &[u64], answers: &mut [u8]) -> SessionC
    ensures { (result ≡ (session_on b (events_of words.now) answers.old).0) × (answers.new ≡ (session_on b (events_of words.now) answers.old).1) }
{
    end_on(b, run_words(b.checked(), words, answers))
}
