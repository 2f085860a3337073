// The port for C: functions `sdf_..`, each a function of the public face `sdf` with its answer as a record of
// `c_records`. sdf.h, beside this folder, declares them. Rattle calls them as they stand here (`replay_steps`); a C program
// calls those of `sdf_archive`, which have their names and their promises and call these.
//
//   geometry  the root, the comparison and the geometry
//   grids     the grid's questions
//   job       the whole job
//   files     a scanner's file, read and written
//   meshes    a mesh tidied
//   facets    which cells name a facet
#![tactic(auto)]

pub mod facets;
pub mod files;
pub mod geometry;
pub mod grids;
pub mod job;
pub mod meshes;
