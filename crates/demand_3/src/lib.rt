// What the field means, as a theorem over the run's definition (document 01, demand 3). There is no code
// here. specs/ has the statement and the definitions that it needs, proofs/ the theorem, in Theorem.antt.
#![tactic(auto)]
