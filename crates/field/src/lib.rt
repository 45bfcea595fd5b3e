// Demand 3: the walk over a field of cards. Definitions and theorems, no function.
#![tactic(auto)]
