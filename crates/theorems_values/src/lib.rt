// No code: what the answers of `is_value` and `is_value_in` tell are theorems. Read specs/ValuesTell.antt.
#![tactic(auto)]
