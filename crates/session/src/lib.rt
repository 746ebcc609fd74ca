// What sessions are made of: what one gives, its two refusals, an answer's three bytes, and the count of refused records. The sessions
// themselves are above, over a lent list of events (session_walk) and over words (word_session): both are the session of crate runs by the
// board's rules (specs/Session.antt).
#![tactic(auto)]

ghost use Rattle.std.specs.Prelude.{◌≡◌, ◌≤◌};
ghost use Rattle.refusals.specs.Refusals.{number_of};
ghost use Rattle.runs.specs.Session.{refused_one};
ghost use Rattle.session.specs.Session.{ended};
ghost use Rattle.session.specs.Turns.{refusal_for, begin_of, answer_put};

use bandai_fcg::board::Board;
use event::Answer;
use refusals::Refusal;
use validity::is_valid;

// What a session gives: the board after its last record, the number of records in the list, the number of those refused; or the refusal of
// the session as a whole, with the board as it was and 0 for both.
#[derive(Clone, Copy)]
pub struct SessionEnd {
    pub board: Board,
    pub records: usize,
    pub refused: usize,
    pub refusal: Option<Refusal>,
}

// Checks a session as a whole: the board first, then the room, by a division, which cannot overflow.
fn check_session(board: Board, events: usize, bytes: usize) -> Result<(), Refusal>
    ensures { number_of result ≡ refusal_for board events bytes }
{
    if !is_valid(board) {
        Err(Refusal::BoardNotValid)
    } else if bytes / 3 < events {
        Err(Refusal::BufferTooShort)
    } else {
        Ok(())
    }
}

// The session before its first turn. Its records are the turns to take: none where it is refused.
#[tactic(auto, unfolding(crate::specs::Turns::begin_of))]
pub fn begin(board: Board, events: usize, bytes: usize) -> SessionEnd
    ensures { ended result ≡ begin_of board events bytes }
{
    match check_session(board, events, bytes) {
        Ok(()) => SessionEnd {
            board,
            records: events,
            refused: 0,
            refusal: None,
        },
        Err(refusal) => SessionEnd {
            board,
            records: 0,
            refused: 0,
            refusal: Some(refusal),
        },
    }
}

// The three bytes of an answer, where there is room for them.
#[tactic(auto, using(crate::proofs::TurnsLaws::three_copied))]
pub fn put_answer(answers: &mut [u8], at: usize, answer: Answer)
    ensures { answers.new ≡ answer_put answers.old at answer }
{
    let Some(end) = at.checked_add(3) else {
        return;
    };
    if end <= answers.len() {
        answers[at..end].copy_from_slice(&[answer.refusal, answer.flags, answer.value]);
    }
}

// What a record adds to the number of those refused.
pub fn refused_one(refusal: u8) -> usize
    ensures { (result ≡ refused_one refusal) × (result ≤ 1) }
{
    usize::from(refusal != 0)
}
