// A module read and a device read, on the parts that they look at.
ghost use Rattle.std.specs.Prelude.{◌≡◌, slice_index};
ghost use Rattle.cart.specs.Cart.{may_read};
ghost use Rattle.bandai_fcg.specs.Reader.{module_read_at};
ghost use Rattle.bandai_fcg.specs.Board.{eeprom_out, device_value};
ghost use Rattle.board_codes.specs.Bytes.{flag_at};

use bandai_fcg::board::BandaiFCG;
use bandai_fcg::device::{device_value, eeprom_out};
use bandai_fcg::module_read::{ModuleRead, module_read_at};
use cart::Cart;

// Returns whether the cart lets its devices be read. It never changes, so a caller asks once.
#[unsafe(no_mangle)]
pub extern "C" fn molbitak_may_read(cart: Cart) -> bool
    ensures { result ≡ may_read cart }
{
    cart.may_read()
}

// Returns which module the reader shows, the clocks spent in it, and its light. `times` are the first three fields of BarcodeReader in their
// order, `fitted` is whether the board has a reader.
#[unsafe(no_mangle)]
pub extern "C" fn molbitak_module_read(
    times: &[u64; 3],
    module_count: u8,
    fitted: bool,
    modules: &[u8; BandaiFCG::MODULES],
) -> ModuleRead
    ensures { result ≡ module_read_at fitted (slice_index times.now 0) (slice_index times.now 1) module_count modules.now }
{
    module_read_at(fitted, times[0], times[1], module_count, modules)
}

// Returns what the devices give at every address that they answer at. `devices` are the fields of DevicesC, `times` the first three fields of
// BarcodeReader, in their order. The module is read before the chips, and `times` is the third argument: so the division saves no register.
#[unsafe(no_mangle)]
pub extern "C" fn molbitak_device_read(
    devices: &[u8; 23],
    module_count: u8,
    times: &[u64; 3],
    modules: &[u8; BandaiFCG::MODULES],
) -> u8
    ensures { result ≡ device_value (module_read_at (flag_at 20 devices.now) (slice_index times.now 0) (slice_index times.now 1) module_count modules.now).light (eeprom_out (flag_at 21 devices.now) (flag_at 22 devices.now) (slice_index devices.now 7) (slice_index devices.now 17)) }
{
    let module = module_read_at(devices[20] != 0, times[0], times[1], module_count, modules);
    let out = eeprom_out(devices[21] != 0, devices[22] != 0, devices[7], devices[17]);
    device_value(module.light, out)
}
