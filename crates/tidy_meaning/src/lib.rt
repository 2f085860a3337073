// What tidying a mesh means for who calls it (document 02, §10): theorems over the contracts of `tidy_mesh` and `sdf_tidy_mesh`.
// No code: specs/ has the statements, proofs/Theorem.antt the proofs.
#![tactic(auto)]
