// What the chip rule of a board reaches: nothing where no X24C02 is fitted. This crate has no code.
#![tactic(auto)]
