// No code: what holds over every run of a camera session. Definitions stand in specs/, theorems in proofs/.
#![tactic(auto)]
