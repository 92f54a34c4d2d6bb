// The theorems of the demands and the worked examples, over the definition of the solve: no code.
#![tactic(auto)]
