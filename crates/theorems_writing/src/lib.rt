// No code: that `write_value` writes the shortest text, and that it is read back, are theorems.
// Read specs/Shortest.antt.
#![tactic(auto)]
