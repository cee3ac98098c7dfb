// The accounts of a period: their definitions (specs/; rules 4.1 to 8.8) and what is proved of them (proofs/; rules 13.3 to 13.11).
// There is no code here: `settling` and `period`, above, compute what is defined here.

#![tactic(auto)]
