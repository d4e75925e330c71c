// No code: the customer's three demands stand in specs/, their proofs in proofs/.
#![tactic(auto)]
