// What the bench prints and draws says of the cards: demand 3 for its row. Definitions and theorems, no function.
#![tactic(auto)]
