// Theorems about documents that come in parts, and no function. What is proved: specs/Decided.antt, Calls.antt.
#![tactic(auto)]
