// No code: definitions and theorems stand in specs/ and proofs/.
// What reading refuses depends on no token behind the one after those that are consumed, and these are tokens.
#![tactic(auto)]
