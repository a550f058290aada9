//! How the parts of the box, each with its own contract, make up what the box holds; no code: see specs/ and proofs/.
#![tactic(auto)]
