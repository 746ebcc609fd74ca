// When two cards have the same modules: exactly if they agree in the digits that show. No code.
#![tactic(auto)]
