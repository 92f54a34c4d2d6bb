// No code: specs/ says what a whole input prints, and proofs/ that a reader prints it however the input is cut into portions.
#![tactic(auto)]
