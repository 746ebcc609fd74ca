// A chip as the ten bytes that it lies in memory as: its fields in their order.
ghost use Rattle.std.specs.Prelude.{◌≡◌};
ghost use Rattle.board_codes.specs.Bytes.{chip_at, chip_bytes};

use crate::chip::EepromC;

impl From<[u8; 10]> for EepromC {
    ghost from_gives = { λ bytes chip. chip ≡ chip_at bytes };

    #[tactic(auto, unfolding(crate::specs::Bytes::chip_at))]
    fn from(bytes: [u8; 10]) -> EepromC {
        let [
            model,
            mode,
            next_mode,
            chip_addr,
            addr,
            shift,
            counter,
            output,
            prev_scl,
            prev_sda,
        ] = bytes;
        EepromC {
            model,
            mode,
            next_mode,
            chip_addr,
            addr,
            shift,
            counter,
            output,
            prev_scl,
            prev_sda,
        }
    }
}

impl From<EepromC> for [u8; 10] {
    ghost from_gives = { λ chip bytes. bytes ≡ chip_bytes chip };

    #[tactic(auto, unfolding(crate::specs::Bytes::chip_bytes))]
    fn from(chip: EepromC) -> [u8; 10] {
        [
            chip.model,
            chip.mode,
            chip.next_mode,
            chip.chip_addr,
            chip.addr,
            chip.shift,
            chip.counter,
            chip.output,
            chip.prev_scl,
            chip.prev_sda,
        ]
    }
}
