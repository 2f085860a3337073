// What the field means for a caller from C (document 01, demand 3): a theorem over the contracts of
// `sdf_generate_grid_sdf` and `sdf_generate_grid_sdf_records`. There is no code here.
#![tactic(auto)]
