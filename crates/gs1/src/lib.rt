// GS1's EAN-13 and EAN-8 symbols in GS1's own terms, and the theorems that the modules of a card are just these. No code.
#![tactic(auto)]
