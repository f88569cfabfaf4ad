// Definitions and laws of exact quantities. There is no code here: see specs/ and proofs/.
#![tactic(auto)]
