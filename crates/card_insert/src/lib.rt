// What a board with a reader holds once a card was put in and inserted: the list that crates card_alike and card_decode speak of. No code.
#![tactic(auto)]
