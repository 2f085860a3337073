// Of the numbers below a bound, those that pass a test: the least, whether there is one, and the i-th. There is no code
// here. specs/ has the definitions, proofs/ the laws that callers cite.
#![tactic(auto)]
