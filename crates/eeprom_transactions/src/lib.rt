// Whole transactions of an X24C02 under the datasheet's rule, as theorems: proofs/TransactionLaws, and computed in specs/SheetRun. This crate has
// no code.
#![tactic(auto)]
