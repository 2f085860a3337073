// What a row means (document 02, §2): a theorem over the outcome of the whole job, for callers from Rattle and from C. There is no
// code here. specs/ has the statement, proofs/ the theorem, in Theorem.antt.
#![tactic(auto)]
