// No code, but definitions and theorems: TOML's grammar of strings, in its editions 1.0.0 and 1.1.0, and demand 3 of the
// project's scope: that a string token decodes without error exactly when this grammar derives it.
// Read specs/Grammar.antt beside the published ABNF, then specs/Demand3.antt.
#![tactic(auto)]
