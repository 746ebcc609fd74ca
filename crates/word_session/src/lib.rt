// A session over events given as words: three for each record, as a record lies in memory. It is the session of `run_session` (crate
// session_walk) over the same records, and what the host runs: the board's arrays are lent to every turn, so that no turn copies them.
// The law demand-3-words (equivalence/specs/Theorem.antt) speaks of it.
#![tactic(auto)]

ghost use Rattle.std.specs.Prelude.{◌≡◌, ◌+◌, ◌*◌, ◌<◌, ◌≤◌, ◌^◌, length, take};
ghost use Rattle.runs.specs.Session.{session};
ghost use Rattle.event_step.specs.declared.Arrays.{Arrays};
ghost use Rattle.event_step.specs.Step.{board_of};
ghost use Rattle.session.specs.Session.{board_rules, ended, session_end};
ghost use Rattle.session.specs.Turns.{begin_of, turn_end, turn_buffer, turns_from};
ghost use Rattle.event_words.specs.Words.{event_at, events_of};
ghost use Rattle.word_session.specs.Apart.{end_of, RunWithin};

use bandai_fcg::board::{BandaiFCG, Board};
use event::Event;
use event_step::{Arrays, SteppedState, step_parts};
use event_words::event_of;
use refusals::Refusal;
use session::{SessionEnd, begin, put_answer, refused_one};

// A session on its way, without the board's arrays.
#[derive(Clone, Copy)]
struct Run {
    bandai: BandaiFCG,
    records: usize,
    refused: usize,
    refusal: Option<Refusal>,
}

fn event_at(words: &[u64], i: usize) -> Event
    requires { 3 * i + 3 ≤ length words.now }
    ensures { result ≡ event_at words.now i }
{
    event_of(words[3 * i], words[3 * i + 1], words[3 * i + 2])
}

// One turn: record i is stepped, and its answer stands at 3 i.
#[tactic(auto, using(session::proofs::TurnsLaws::put_room), unfolding(event::specs::Event::step_of, session::specs::Turns::turn_end, session::specs::Turns::turn_buffer, crate::specs::Apart::end_of, crate::specs::Apart::RunWithin))]
fn turn(run: Run, event: Event, i: usize, answers: &mut [u8], arrays: &mut Arrays) -> Run
    requires { (3 * i + 3 ≤ length answers.old) × (RunWithin run i × (i + 1 < 2 ^ 64)) }
    ensures { (end_of result arrays.new ≡ turn_end (end_of run arrays.old) event) × (answers.new ≡ turn_buffer (end_of run arrays.old) event i answers.old) }
{
    let SteppedState { bandai, answer } = step_parts(run.bandai, event, arrays);
    put_answer(answers, 3 * i, answer);
    Run {
        bandai,
        refused: run.refused + refused_one(answer.refusal),
        ..run
    }
}

// All turns of the session. The answers are put by index: of a buffer that `chunks_exact_mut` lent, a proof knows no byte.
fn turns(begun: Run, words: &[u64], answers: &mut [u8], arrays: &mut Arrays) -> Run
    requires { (3 * begun.records ≤ length answers.old) × ((3 * begun.records ≤ length words.now) × RunWithin begun 0) }
    ensures { (end_of result arrays.new, answers.new) ≡ turns_from (end_of begun arrays.old) 0 answers.old (take begun.records (events_of words.now)) }
{
    let mut run = begun;
    for i in 0..begun.records {
        run = turn(run, event_at(words, i), i, answers, arrays);
    }
    run
}

// The session before its first turn.
#[tactic(auto, unfolding(session::specs::Turns::begin_of, crate::specs::Apart::end_of))]
fn begin_apart(board: Board, events: usize, bytes: usize) -> Run
    ensures { (arrays : Arrays) → board_of board.bandai arrays ≡ board → end_of result arrays ≡ begin_of board events bytes }
{
    let begun = begin(board, events, bytes);
    Run {
        bandai: board.bandai,
        records: begun.records,
        refused: begun.refused,
        refusal: begun.refusal,
    }
}

// Runs the events of the words in order from the board, as `run_session` does. A rest of fewer than three words is ignored.
pub fn run_words(board: Board, words: &[u64], answers: &mut [u8]) -> SessionEnd
    ensures { (ended result ≡ session_end (session board_rules board (events_of words.now) answers.old)) × (answers.new ≡ (session board_rules board (events_of words.now) answers.old).answers) }
{
    let begun = begin_apart(board, words.len() / 3, answers.len());
    let mut arrays = Arrays::from(board);
    let run = turns(begun, words, answers, &mut arrays);
    SessionEnd {
        board: arrays.beside(run.bandai),
        records: run.records,
        refused: run.refused,
        refusal: run.refusal,
    }
}
