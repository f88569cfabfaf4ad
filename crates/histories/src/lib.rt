// Demands 1 to 3 of the calls of book. Definitions and theorems only: see specs/ and proofs/.
#![tactic(auto)]
