// No code: what the merged call answers and leaves stands in specs/, how its functions come to that in proofs/.
#![tactic(auto)]
