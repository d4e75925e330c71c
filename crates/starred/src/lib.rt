// No code: document 01's starred cases and its whole example stand in specs/, their proofs in proofs/.
#![tactic(auto)]
