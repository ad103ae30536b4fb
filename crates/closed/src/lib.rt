// No code: definitions and theorems stand in specs/ and proofs/.
// What reading writes is a list that opening takes.
#![tactic(auto)]
