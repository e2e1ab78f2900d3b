// No code: what totals come to, and that the order of documents changes none of them, are theorems.
// Read specs/Totals.antt.
#![tactic(auto)]
