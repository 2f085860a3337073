// The run, as a definition: what seeding, queueing, spreading, crossings, signs and rows are for a
// grid and a mesh (document 01, "The run"). There is no code here. The crates above promise by these
// definitions, and proofs/ has the laws about them that those crates cite.
#![tactic(auto)]
