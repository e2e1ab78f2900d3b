// No code: the worked examples of tokens and of strings, proved of the definitions as one list with
// one claim. Read specs/Examples.antt.
#![tactic(auto)]
