// Layout files and their verdicts, computed: rows, and no code.
#![tactic(auto)]
