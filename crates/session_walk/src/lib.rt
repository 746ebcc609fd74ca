// A session over a lent list of event records, run in order from a board, with three answer bytes for each in a lent buffer. Over the
// same records lent as words it is `run_words` of crate word_session.
#![tactic(auto)]

ghost use Rattle.std.specs.Prelude.{◌≡◌, ◌+◌, ◌*◌, ◌≤◌, length};
ghost use Rattle.runs.specs.Session.{session};
ghost use Rattle.session.specs.Session.{board_rules, ended, session_end};
ghost use Rattle.session.specs.Turns.{turn_end, turn_buffer, CountsWithin};

use bandai_fcg::board::Board;
use event::{Event, Stepped};
use event_step::step;
use session::{SessionEnd, begin, put_answer, refused_one};

// One turn: record i is stepped, and its answer stands at 3 i. The step is by value, a rule of the project for this walk; its twin in
// word_session lends the arrays, for speed.
#[tactic(auto, using(session::proofs::TurnsLaws::put_room, session::proofs::TurnsLaws::counts_fit), unfolding(event::specs::Event::step_of, session::specs::Turns::CountsWithin, session::specs::Turns::turn_end, session::specs::Turns::turn_buffer))]
fn turn(run: SessionEnd, event: Event, answers: &mut [u8], i: usize) -> SessionEnd
    requires { (3 * i + 3 ≤ length answers.old) × CountsWithin (ended run) i }
    ensures { (ended result ≡ turn_end (ended run) event) × (answers.new ≡ turn_buffer (ended run) event i answers.old) }
{
    let Stepped { board, answer } = step(run.board, event);
    put_answer(answers, 3 * i, answer);
    SessionEnd {
        board,
        refused: run.refused + refused_one(answer.refusal),
        ..run
    }
}

// Runs the events in order from the board. Refused with 12, then 10 (the buffer is shorter than three bytes an event), with the board and the
// buffer as they were; else the buffer past the answers is as it was.
pub fn run_session(board: Board, events: &[Event], answers: &mut [u8]) -> SessionEnd
    ensures { (ended result ≡ session_end (session board_rules board events.now answers.old)) × (answers.new ≡ (session board_rules board events.now answers.old).answers) }
{
    let mut run = begin(board, events.len(), answers.len());
    let turns = &events[..run.records];
    for (i, event) in turns.iter().enumerate() {
        run = turn(run, *event, answers, i);
    }
    run
}
