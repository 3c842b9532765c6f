// What each call gives and leaves, for every input: definitions in specs/, theorems in proofs/.
#![tactic(auto)]
