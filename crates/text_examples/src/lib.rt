// No code: definitions and theorems stand in specs/ and proofs/.
#![tactic(auto)]
