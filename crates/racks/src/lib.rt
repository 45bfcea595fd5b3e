// Two racks over one list: definitions and theorems alone.
#![tactic(auto)]
