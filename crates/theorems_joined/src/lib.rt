// Theorems about a document that is joined from parts, and no code: when its tokens are those of
// the parts. Statements: specs/Joined.antt. Proofs: proofs/.
#![tactic(auto)]
