// No code: the theorems over the definitions of `paper` stand in specs/ and proofs/.
#![tactic(auto)]
