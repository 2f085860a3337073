// Which cells does this facet serve (document 02, §12): what the index of a field's names is, and that names have exactly one. There
// is no code here. specs/ has the definitions, proofs/ the laws that the build, the check of an old index and the calls cite.
#![tactic(auto)]
