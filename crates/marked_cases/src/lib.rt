// The marked cases of document 01, "Points on each side": one table, proved by one claim. There is no
// code here. specs/Marked.antt has the table, proofs/Marked.antt the claim.
#![tactic(auto)]
