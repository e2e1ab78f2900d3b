// Theorems about lexing, and no code: what the rules of `lexer` say of all the tokens of a
// document together. Statements: specs/Lexing.antt. Proofs: proofs/.
#![tactic(auto)]
