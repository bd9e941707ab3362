// The nine calls and their contracts as relations: definitions, and no code.
#![tactic(auto)]
