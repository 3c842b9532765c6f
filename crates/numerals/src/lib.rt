// A theory crate: its definitions stand in specs/, its theorems in proofs/.
#![tactic(auto)]
