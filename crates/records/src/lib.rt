// The event records of a script: kept as words, three each, and run as a session whose answers are written. specs/Records.antt defines it.
#![tactic(auto)]

ghost use Rattle.std.specs.Prelude.{◌≡◌, ◌*◌, ◌^◌, ◌<◌};
ghost use Rattle.refusals.specs.Refusals.{number_of_refusal};
ghost use Rattle.output.specs.Put.{Puts};
ghost use Rattle.records.specs.Records.{put_record, session_lines, session_on, ran, ran_of, ran_out, pending_of};

use bandai_fcg::board::Board;
use lines::{answer_lines, front, refused_lines};
use output::Output;
use player::Player;
use refusals::Refusal;
use session::SessionEnd;
use word_session::run_words;

// Stores the three words of record i, where there is room.
#[tactic(auto, using(crate::proofs::RecordsLaws::record_copied), unfolding(crate::specs::Records::put_record))]
pub fn put_record(words: &mut [u64], i: usize, record: [u64; 3])
    ensures { words.new ≡ put_record words.old i «record» }
{
    if i < words.len() / 3 {
        words[3 * i..3 * i + 3].copy_from_slice(&record);
    }
}

// The lines of a session of `count` records.
#[tactic(auto, unfolding(crate::specs::Records::session_lines))]
fn put_answers(out: &mut Output, refusal: Option<Refusal>, answers: &[u8], count: usize)
    requires { 3 * count < 2 ^ 64 }
    ensures { Puts out.old out.new (session_lines (number_of_refusal refusal) answers.now count) }
{
    match refusal {
        None => answer_lines(out, front(answers, 3 * count)),
        Some(refusal) => refused_lines(out, refusal.number(), count),
    }
}

// Runs the records of the words, at most 64, and writes their answers; where they are refused as a whole, the refusal for each.
#[tactic(auto, unfolding(laws::specs::Lists::blank, session::specs::Session::session_end, crate::specs::Records::ran_of, crate::specs::Records::written))]
pub fn run_records(board: Board, words: &[u64], out: &mut Output) -> SessionEnd
    ensures ran { ran result out.new.at ≡ ran_of board words.now out.old.bytes.now out.old.at }
    ensures refusal { number_of_refusal result.refusal ≡ (session_on board words.now).refusal }
    ensures written { (out.new.bytes.now ≡ ran_out board words.now out.old.bytes.now out.old.at) × (out.new.bytes.ghost_name ≡ out.old.bytes.ghost_name) }
{
    let mut answers = [0; 192];
    let end = run_words(board, words, &mut answers);
    put_answers(out, end.refusal, &answers, words.len() / 3);
    end
}

// The player after the records of the words, with their answers written.
#[tactic(auto, unfolding(crate::specs::Records::pending_of))]
pub fn run_pending(player: Player, words: &[u64], out: &mut [u8]) -> Player
    ensures { (result, out.new) ≡ pending_of player words.now out.old }
{
    let mut output = Output {
        bytes: out,
        at: player.place,
    };
    let end = run_records(player.board, words, &mut output);
    Player {
        board: end.board,
        records: player.records.wrapping_add(end.records as u64),
        refused: player.refused.wrapping_add(end.refused as u64),
        place: output.at,
        ..player
    }
}
