// What holds of all calls together: definitions and theorems, and no code.
#![tactic(auto)]
