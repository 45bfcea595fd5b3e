// Demand 3 on the coil: definitions and laws, no function.
#![tactic(auto)]
