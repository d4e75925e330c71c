// No code: the laws of accesses that the crates above need, and the functions of `elements` don't, stand in proofs/.
#![tactic(auto)]
