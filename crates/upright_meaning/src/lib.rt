// What the upright axis and the edition of the table mean for a whole job (document 02, §9 and §11): its rows, and nothing else.
// No code: specs/Upright.antt has the statements, proofs/Theorem.antt the proofs.
#![tactic(auto)]
