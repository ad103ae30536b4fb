// No code: definitions and theorems stand in specs/ and proofs/.
// The tokens of a text as the grammar reads them.
#![tactic(auto)]
