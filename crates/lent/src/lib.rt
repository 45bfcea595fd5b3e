// What every call says of the buffers that it is lent. Definitions (specs/) and laws (proofs/) alone: there is no code here.
#![tactic(auto)]
