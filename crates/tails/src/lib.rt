// Sums, digits, and the tails that UIDs share: definitions and laws, no function.
#![tactic(auto)]
