// The book of demand 3: definitions and laws only, in specs/ and proofs/.
#![tactic(auto)]
