// No code: definitions and theorems stand in specs/ and proofs/.
// The grammar of the covered definitions, and that reading accepts exactly what it derives.
#![tactic(auto)]
