#![tactic(auto)]

// No code: this crate holds the theorems about the others, in specs/ and proofs/.
