// Clocks, on the numbers that they change.
ghost use Rattle.std.specs.Prelude.{◌≡◌, ◌+◌, ◌%◌, ◌^◌, ◌<◌, ◌&&◌, ◌||◌, nat_lt};
ghost use Rattle.laws.specs.Choice.{pick};
ghost use Rattle.regs.specs.Regs.{step_down};
ghost use Rattle.bandai_fcg.specs.declared.board.Board.{Board};
ghost use Rattle.event.specs.Event.{clocks_event, refusal_of, after_of};
ghost use Rattle.molbitak_step.specs.Parts.{with_clocks};

use event::refusal::check_clocks;
use regs::{count_down, finds_zero};

fn reader_clocks(clock: &mut u64, fitted: bool, count: u32)
    ensures { clock.new ≡ pick fitted ((clock.old + count) % 2 ^ 64) clock.old }
{
    if fitted {
        *clock = clock.wrapping_add(u64::from(count));
    }
}

// Stored only where it changes, so that no later load waits for it.
fn set_pending(pending: &mut bool, found: bool)
    ensures { pending.new ≡ pending.old || found }
{
    if found {
        *pending = true;
    }
}

fn counter_clocks(counter: &mut u16, pending: &mut bool, enabled: bool, count: u32)
    ensures { (counter.new ≡ pick enabled (step_down counter.old (count % 65536)) counter.old) × (pending.new ≡ pending.old || enabled && nat_lt counter.old count) × (counter.old < 65536) }
{
    let c = *counter;
    if enabled {
        set_pending(pending, finds_zero(c, count));
        *counter = count_down(c, count);
    }
}

// Takes `count` clocks and returns 0, or 6 and nothing changes. `fitted` is whether the board has a reader, `clock` its clock; `enabled` is
// whether the interrupt counter counts.
#[tactic(auto, unfolding(event::specs::Event::refusal_of, event::specs::Event::after_of))]
#[unsafe(no_mangle)]
pub extern "C" fn molbitak_clocks(
    clock: &mut u64,
    fitted: bool,
    counter: &mut u16,
    pending: &mut bool,
    enabled: bool,
    count: u32,
) -> u8
    ensures { (b : Board) → (result ≡ refusal_of (clocks_event count) (with_clocks clock.old fitted counter.old pending.old enabled b).bandai) × (with_clocks clock.new fitted counter.new pending.new enabled b ≡ after_of (clocks_event count) (with_clocks clock.old fitted counter.old pending.old enabled b)) }
{
    match check_clocks(fitted, *clock, count) {
        Ok(()) => {
            reader_clocks(clock, fitted, count);
            counter_clocks(counter, pending, enabled, count);
            0
        }
        Err(refusal) => refusal.number(),
    }
}
