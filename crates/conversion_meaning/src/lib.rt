// What a conversion means (document 02, §7): the job program answers it as it answered the strip while it took strips.
// No code: specs/AsBefore.antt has the statement, proofs/Theorem.antt the proof.
#![tactic(auto)]
