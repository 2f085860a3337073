// What the index of a field's names means for who calls it (document 02, §12): theorems over the contracts of a build and of an
// update, and over the outcome of a job. No code: specs/ has the statements, proofs/Theorem.antt and proofs/Job.antt the
// theorems.
#![tactic(auto)]
