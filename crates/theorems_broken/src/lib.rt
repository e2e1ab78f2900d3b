// No code: what the answers of `first_broken_in` say, and how far it reads, are theorems.
// Read specs/Theorems.antt.
#![tactic(auto)]
