// The change of the two lines, by their levels before and now.
ghost use Rattle.std.specs.Prelude.{◌≡◌};
ghost use Rattle.eeprom.specs.Lines.{change_of};

use crate::LineChange;

// Returns the change, by SCL before and now and SDA before and now.
// While SCL stays high, SDA falling is START and SDA rising is STOP.
pub(crate) fn change_of(prev_scl: bool, scl: bool, prev_sda: bool, sda: bool) -> LineChange
    ensures { result ≡ change_of prev_scl scl prev_sda sda }
{
    match (prev_scl, scl, prev_sda, sda) {
        (true, true, true, false) => LineChange::Start,
        (true, true, false, true) => LineChange::Stop,
        (false, true, _, _) => LineChange::Rise,
        (true, false, _, _) => LineChange::Fall,
        _ => LineChange::Nothing,
    }
}
